// What a program prints: a page of bytes behind one another, which goes to standard output when there may be no room for a line more.
// What does not fit on the page is dropped. Nothing beneath says which bytes a write moves or when it fails, so no contract of Output can.
#![tactic(auto)]

ghost use Rattle.std.specs.Prelude.{◌≡◌, ℕ, ◌-◌, ◌≤◌, List, IsOk, [], ◌∷◌, ◌++◌, length, take};

use program_io::write;
use std::fmt;
use std::marker::Model;

#[derive(Drop)]
pub struct Page {
    bytes: [u8; 65536],
    filled: usize,
}

impl Model for Page {
    ghost Value = { List ℕ };

    ghost view = { λ p. take p.filled p.bytes };

    ghost invariant = { λ p. p.filled ≤ 65536 };
}

impl Page {
    pub fn new() -> Page
        ensures { result ≡ [] }
    {
        Page {
            bytes: [0; 65536],
            filled: 0,
        }
    }

    pub fn len(&self) -> usize
        ensures { result ≡ length self.now }
    {
        self.filled
    }

    // How many bytes more fit.
    pub fn room(&self) -> usize
        ensures { result ≡ 65536 - length self.now }
    {
        self.bytes.len() - self.filled
    }

    pub fn as_bytes(&self) -> &[u8]
        ensures { result.now ≡ self.now }
    {
        &self.bytes[..self.filled]
    }

    pub fn clear(&mut self)
        ensures { self.new ≡ [] }
    {
        self.filled = 0;
    }

    pub fn push(&mut self, byte: u8)
        ensures { self.new ≡ take 65536 (self.old ++ byte ∷ []) }
    {
        if self.filled < self.bytes.len() {
            self.bytes[self.filled] = byte;
            self.filled += 1;
        }
    }

    pub fn put_bytes(&mut self, text: &[u8])
        ensures { self.new ≡ take 65536 (self.old ++ text.now) }
    {
        let k = (self.bytes.len() - self.filled).min(text.len());
        self.bytes[self.filled..self.filled + k].copy_from_slice(&text[..k]);
        self.filled += k;
    }

    // Puts what a value displays.
    pub fn put<D: fmt::Display + Drop>(&mut self, value: D) {
        let _ = fmt::Write::write(self, value);
    }
}

impl fmt::Write for Page {
    fn write_str(&mut self, text: &str) -> fmt::Result
        ensures { (IsOk result) × (self.new ≡ take 65536 (self.old ++ text.now)) }
    {
        self.put_bytes(text.as_bytes());
        Ok(())
    }
}

// A write has failed, and standard error says why.
#[derive(Clone, Copy, Debug, PartialEq, Eq)]
pub struct WriteFailed;

#[derive(Drop)]
pub struct Output<'a> {
    rt: &'a HostRuntime,
    pub page: Page,
}

impl<'a> Output<'a> {
    pub fn new(rt: &'a HostRuntime) -> Output<'a> {
        Output {
            rt,
            page: Page::new(),
        }
    }

    // Writes the page, which is then empty.
    pub fn flush(&mut self) -> Result<(), WriteFailed> {
        let all = write(self.rt, self.page.as_bytes());
        self.page.clear();
        if all { Ok(()) } else { Err(WriteFailed) }
    }

    // Makes room for a line of so many bytes.
    pub fn make_room(&mut self, longest: usize) -> Result<(), WriteFailed> {
        if self.page.room() < longest {
            self.flush()?;
        }
        Ok(())
    }
}
