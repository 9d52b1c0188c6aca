// What a program asks of the system: its arguments, the bytes of its input, and bytes on its standard output and error.
// Nothing beneath says which arguments there are, which bytes a read brings, or where a write goes, so no contract here can.
#![tactic(auto)]

ghost use Rattle.std.specs.Prelude.{◌≤◌, length, IfSome};

use std::env::FillError;
use std::fmt::InlineText;
use std::fs::File;
use std::io::{Error, ErrorKind, Read};
use std::rt::Env;

// How many arguments there are; the program's name is the first.
pub fn argument_count(rt: &HostRuntime) -> usize {
    let mut text = [0u8; 1];
    for i in 0..usize::MAX {
        if let Err(FillError::NotPresent) = rt.arg(i, &mut text) {
            return i;
        }
    }
    usize::MAX
}

// The argument, which is put into the text; none where there are not that many, or where it is longer than the text.
pub fn argument<'a>(rt: &HostRuntime, i: usize, text: &'a mut [u8; 4096]) -> Option<&'a [u8]> {
    match rt.arg(i, text) {
        Ok(n) => Some(&text[..n]),
        Err(_) => None,
    }
}

// What is read from the argument; none where there is no such argument, or where nothing can be read from it.
pub fn argument_as<T, F: FnOnce(&[u8]) -> Option<T>>(
    rt: &HostRuntime,
    i: usize,
    read: F,
) -> Option<T>
    requires { F.IsAlwaysCallable read }
{
    let mut text = [0u8; 4096];
    read(argument(rt, i, &mut text)?)
}

// Writes the bytes on standard output, as far as it takes them.
pub fn print(rt: &HostRuntime, bytes: &[u8]) {
    let _ = rt.write_all(bytes);
}

// Likewise the number's decimal digits.
pub fn print_number(rt: &HostRuntime, number: u64) {
    let _ = rt.print(number);
}

// Writes the bytes on standard error, as far as it takes them.
pub fn tell(rt: &HostRuntime, bytes: &[u8]) {
    let _ = rt.stderr().write_all(bytes);
}

// Likewise the number's decimal digits.
pub fn tell_number(rt: &HostRuntime, number: u64) {
    let _ = rt.eprint(number);
}

// The words of an error, without the system's number behind them.
fn reason_in(text: &str) -> &str {
    match text.split_once(" (os error ") {
        Some((reason, _)) => reason,
        None => text,
    }
}

// A line on standard error: what failed, and why.
pub fn fail(rt: &HostRuntime, what: &[u8], error: Error) {
    let text = InlineText::<256>::of(error);
    tell(rt, what);
    tell(rt, b": ");
    tell(rt, reason_in(text.as_str()).as_bytes());
    tell(rt, b"\n");
}

// Writes the bytes on standard output, or says on standard error why it cannot.
pub fn write(rt: &HostRuntime, bytes: &[u8]) -> bool {
    match rt.write_all(bytes) {
        Ok(()) => true,
        Err(error) => {
            fail(rt, b"standard output", error);
            false
        }
    }
}

// How many bytes one read brings, none at the input's end; or nothing where it fails, and standard error says why.
pub fn read<R: Read>(rt: &HostRuntime, input: &mut R, bytes: &mut [u8]) -> Option<usize>
    ensures { IfSome result (λ n. n ≤ length bytes.new) }
{
    match input.read(bytes) {
        Ok(n) => Some(n),
        Err(error) => {
            fail(rt, b"input", error);
            None
        }
    }
}

// The bytes that one read brings, none at the input's end; or nothing where it fails, and standard error says why.
pub fn read_bytes<'a, R: Read>(
    rt: &HostRuntime,
    input: &mut R,
    bytes: &'a mut [u8],
) -> Option<&'a [u8]>
    ensures { IfSome result (λ got. length got.now ≤ length bytes.old) }
{
    let n = read(rt, input, bytes)?;
    Some(&bytes[..n])
}

// Reads until the bytes are full, the input ends or a read fails; how many there are.
pub fn read_full<R: Read>(input: &mut R, bytes: &mut [u8]) -> usize
    ensures { result ≤ length bytes.new }
{
    let mut done = 0;
    // A read brings as many bytes as it likes, so how many turns there are is not known before.
    while done < bytes.len() {
        match input.read(&mut bytes[done..]) {
            Ok(0) => return done,
            Ok(n) => done += n,
            Err(_) => return done,
        }
    }
    done
}

fn open_named(rt: &HostRuntime, name: &[u8]) -> std::io::Result<File> {
    match std::str::from_utf8(name) {
        Ok(path) => File::open(rt, path),
        Err(_) => Err(Error::from(ErrorKind::InvalidFilename)),
    }
}

// Opens the file of that name for reading, or says on standard error why it cannot.
pub fn open(rt: &HostRuntime, name: &[u8]) -> Option<File> {
    match open_named(rt, name) {
        Ok(file) => Some(file),
        Err(error) => {
            fail(rt, name, error);
            None
        }
    }
}
