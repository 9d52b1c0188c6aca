// The first three bytes of a recording: letter, expression digit and LF, if it is one.
// Nothing beneath says which bytes a read brings, so no contract here can.
#![tactic(auto)]

use program_io::read_bytes;
use std::io::Read;

// A read has failed, and standard error says why.
#[derive(Clone, Copy, Debug, PartialEq, Eq)]
pub struct ReadFailed;

// The next byte of the input, or none at its end.
fn next_byte<R: Read>(rt: &HostRuntime, input: &mut R) -> Result<Option<u8>, ReadFailed> {
    let mut byte = [0u8; 1];
    let got = read_bytes(rt, input, &mut byte).ok_or(ReadFailed)?;
    Ok(got.first().copied())
}

// The input's first three bytes, fewer where it ends or no more are lent: they are put into the lent ones.
pub fn read_head<'a, R: Read>(
    rt: &HostRuntime,
    input: &mut R,
    head: &'a mut [u8],
) -> Result<&'a [u8], ReadFailed> {
    let most = head.len().min(3);
    for i in 0..most {
        let Some(byte) = next_byte(rt, input)? else {
            return Ok(&head[..i]);
        };
        head[i] = byte;
    }
    Ok(&head[..most])
}
