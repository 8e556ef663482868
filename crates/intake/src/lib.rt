//! Messages taken from an input one at a time, wherever it is split.
#![tactic(auto)]

ghost use Rattle.std.specs.Prelude.{◌≡◌, ◌+◌, IfOk, vec_len};

use layout::number::Number;
use std::io;
use std::io::Read;

/// Reads once, at most as much as `part` can take, and adds what came to `held`. Nothing comes only where the input ends.
fn more<R: Read>(input: &mut R, part: &mut [u8], held: &mut Vec<u8>) -> io::Result<usize>
    ensures { IfOk result (λ n. vec_len held.new ≡ vec_len held.old + n) }
{
    let count = input.read(part)?;
    held.extend_from_slice(&part[0..count])?;
    Ok(count)
}

/// Reads on until `held` has `size` bytes or the input ends.
// By `read`: `take` and `read_to_end` try an interrupted read again, where this ends with the error, and make room for 512 bytes at
// each call, which took more than twice the time.
fn fill<R: Read>(input: &mut R, held: &mut Vec<u8>, size: usize) -> io::Result<()> {
    while held.len() < size {
        let mut part = [0u8; 64];
        let want = (size - held.len()).min(64);
        if more(input, &mut part[0..want], held)? == 0 {
            break;
        }
    }
    Ok(())
}

/// Reads one message into `held`: first its head, and then the rest. Where the input ends, `held` has what there was of it.
pub fn hold<R: Read>(input: &mut R, held: &mut Vec<u8>) -> io::Result<()> {
    held.clear();
    fill(input, held, 4)?;
    let size = 2 + usize::from(u16::read_at(held.as_slice(), 0));
    fill(input, held, size)
}
