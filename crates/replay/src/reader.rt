// Cases read from a file: words of eight bytes, little-endian.
ghost use Rattle.std.specs.Prelude.{◌≤◌};

use crate::case::{Fault, compare};
use file_words::{read_full, read_words};
use std::io;
use std::io::Read;
use words::WORD_BYTES;

// The words of the longest case that is taken. The longest stored one has 11,182.
const WORDS: usize = 12288;

const BYTES: usize = WORD_BYTES * WORDS;

// Room for the longest case. A function that makes it itself is slow to prove: the prover goes through the zeros.
fn room() -> [u8; BYTES] {
    [0; BYTES]
}

// Whether the n words that follow agree.
fn read_case<R: Read>(input: &mut R, n: usize) -> io::Result<Result<(), Fault>>
    requires { n ≤ 12288 }
{
    let mut bytes = room();
    let bytes = &mut bytes[..WORD_BYTES * n];
    if read_full(input, bytes)? < bytes.len() {
        return Ok(Err(Fault::Unread));
    }
    // No heap: fixed memory for the longest case.
    let mut words = [0u64; WORDS];
    let words = &mut words[..n];
    read_words(bytes, words);
    Ok(compare(words))
}

// Whether the next case agrees, if one is left.
pub fn next<R: Read>(input: &mut R) -> io::Result<Option<Result<(), Fault>>> {
    let mut head = [0u8; WORD_BYTES];
    let got = read_full(input, &mut head)?;
    if got == 0 {
        return Ok(None);
    }
    let n = u64::from_le_bytes(head);
    if got < WORD_BYTES || n > WORDS as u64 {
        return Ok(Some(Err(Fault::Unread)));
    }
    let case = read_case(input, n as usize)?;
    Ok(Some(case))
}
