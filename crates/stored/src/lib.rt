// What the replaying programs share: the numbers of stored records, eight bytes each, the lowest first; and what they count.
#![tactic(auto)]

pub mod tally;

ghost use Rattle.std.specs.Prelude.{◌≡◌, ◌≤◌, ◌⊎◌, length, take, OnOk};
ghost use Rattle.std.specs.Io.KnownBytes.{Consumes, IsAtEnd};
ghost use Rattle.stored.specs.Stored.{number_at, part_of, component_of, vector_of};

use prediction::motion_vector::Mv;
use std::io;
use std::io::Read;

// The number at an index; 0 where the bytes end before it does, as its clause has it (`number_at`).
pub fn number(bytes: &[u8], index: usize) -> usize
    ensures { result ≡ number_at bytes.now index }
{
    match bytes.as_chunks::<8>().0.get(index) {
        Some(eight) => usize::from_le_bytes(*eight),
        None => 0,
    }
}

// A part of the bytes; nothing where it runs past them.
pub fn part(bytes: &[u8], start: usize, len: usize) -> &[u8]
    ensures { result.now ≡ part_of bytes.now start len }
{
    match bytes.get(start..) {
        Some(rest) => rest.get(..len).unwrap_or(&[]),
        None => &[],
    }
}

// A 16-bit component that was stored with 32768 added.
fn component(biased: usize) -> i16
    ensures { result ≡ component_of biased }
{
    ((biased % 65536) as i32 - 32768) as i16
}

// A vector: the row plus 65536 times the column.
pub fn vector(packed: usize) -> Mv
    ensures { result ≡ vector_of packed }
{
    Mv {
        row: component(packed),
        col: component(packed / 65536),
    }
}

// Reads until the buffer is full, the input ends or a read fails, and answers how many bytes it put at the buffer's start, beside
// the error of a read that failed. Not a Result of the count: the bytes read before an error count too.
pub fn read_full<R: Read>(input: &mut R, buf: &mut [u8]) -> (usize, io::Result<()>)
    ensures within { result.0 ≤ length buf.new }
    ensures bytes { Consumes (R.remaining input.old) (R.remaining input.new) (take result.0 buf.new) }
    ensures end { OnOk result.1 ((result.0 ≡ length buf.new) ⊎ IsAtEnd (R.remaining input.new)) }
{
    let mut done = 0;
    // what counts is what each read gives, which may be less than was asked
    while done < buf.len() {
        match input.read(&mut buf[done..]) {
            Ok(0) => break,
            Ok(n) => done += n,
            Err(e) => return (done, Err(e)),
        }
    }
    (done, Ok(()))
}
