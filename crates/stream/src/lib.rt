// Numbers on an input, for the programs. No contract can say what comes on standard input: the readers'
// contracts say how much they answer and what they leave alone, and read_full's which bytes of an input
// that is known. An error is the input's own, and ends the call: nothing is tried again.
#![tactic(auto)]

#[cfg(test)]
mod tests;

ghost use Rattle.std.specs.Prelude.{ℕ, ◌≡◌, ◌+◌, ◌*◌, ◌≤◌, ◌<◌, ◌⊎◌, pos, nat_abs, length, take, drop, ◌≤ℤ◌, IfOk, OnErr};
ghost use Rattle.std.specs.Int.{w16, w32};
ghost use Rattle.std.specs.Io.KnownBytes.{Consumes, IsAtEnd};
ghost use Rattle.std.proofs.Common.{to_z};
ghost use Rattle.rules.specs.Bytes.{u16_limit};
ghost use Rattle.rules.specs.Buffers.{over};
ghost use Rattle.stream.specs.Numbers.{numbers_of, numbers_at_once, bytes_for, Read, ReadNumbers, ReadFront};
ghost use Rattle.stream.specs.Parts.{stored, whole_size, PartRead, FailedBy};

use limits::MAX_BITS;
use std::io::{self, Read};

// How many numbers are read at once: more than a frame or a point has.
pub const NUMBERS_AT_ONCE: usize = 2 * MAX_BITS;

const BYTES_AT_ONCE: usize = 2 * NUMBERS_AT_ONCE;

// The longest code file in a record: longer than any that is accepted.
pub const CODE_LIMIT: usize = 30000;

// A part of a record: a 32-bit size and as many elements. Its size is missing, or more than the
// buffer has room for; or the elements are cut short, or all there.
#[derive(Clone, Copy, Debug, PartialEq, Eq)]
pub enum Part {
    Missing,
    TooLong,
    Cut(usize),
    Whole(usize),
}

impl Part {
    // The size of a part that is whole, and 0 of any other.
    pub fn whole(self) -> usize
        ensures { result ≡ whole_size self }
    {
        match self {
            Part::Missing | Part::TooLong | Part::Cut(_) => 0,
            Part::Whole(size) => size,
        }
    }
}

// Reads until `bytes` is full or the input ends, and answers how many bytes it put in front: the
// input's next ones, where it is known what the input has left.
pub fn read_full<R: Read>(input: &mut R, bytes: &mut [u8]) -> io::Result<usize>
    ensures within { IfOk result (λ got. got ≤ length bytes.new) }
    ensures next { IfOk result (λ got. Consumes (R.remaining input.old) (R.remaining input.new) (take got bytes.new)) }
    ensures end { IfOk result (λ got. got < length bytes.new → IsAtEnd (R.remaining input.new)) }
    ensures err { OnErr result ((k : ℕ) × (k ≤ length bytes.new) × Consumes (R.remaining input.old) (R.remaining input.new) (take k bytes.new)) }
{
    let mut done: usize = 0;
    // A while: how many bytes a read brings is not known beforehand.
    while done < bytes.len() {
        let got = input.read(&mut bytes[done..])?;
        if got == 0 {
            return Ok(done);
        }
        done += got;
    }
    Ok(done)
}

// Reads little-endian numbers until `numbers` has no room, the input ends or 4,096 are read, and
// answers how many bytes that took. The half of a number at the end is not stored.
pub fn read_i16<R: Read>(input: &mut R, numbers: &mut [i16]) -> io::Result<usize>
    ensures read { IfOk result (λ got. ReadFront got numbers.new numbers.old) }
    ensures err { OnErr result (numbers.new ≡ numbers.old) }
{
    let mut bytes = [0u8; BYTES_AT_ONCE];
    read_by(input, &mut bytes, numbers)
}

fn read_by<R: Read>(input: &mut R, bytes: &mut [u8], numbers: &mut [i16]) -> io::Result<usize>
    requires { 2 * numbers_at_once ≤ length bytes.old }
    ensures read { IfOk result (λ got. ReadNumbers got bytes.new numbers.new numbers.old) }
    ensures err { OnErr result (numbers.new ≡ numbers.old) }
{
    let size = bytes_for(numbers.len());
    let got = read_first(input, bytes, size)?;
    decode(bytes, numbers, got / 2);
    Ok(got)
}

// An error, too, leaves what is past the size.
fn read_first<R: Read>(input: &mut R, bytes: &mut [u8], size: usize) -> io::Result<usize>
    requires { size ≤ length bytes.old }
    ensures read { IfOk result (λ got. Read got size bytes.new bytes.old) }
    ensures err { OnErr result (drop size bytes.new ≡ drop size bytes.old) }
{
    read_full(input, &mut bytes[..size])
}

fn bytes_for(count: usize) -> usize
    ensures { result ≡ bytes_for count }
{
    2 * count.min(NUMBERS_AT_ONCE)
}

fn decode(bytes: &[u8], numbers: &mut [i16], count: usize)
    requires { (2 * count ≤ length bytes.now) × (count ≤ length numbers.old) }
    ensures { numbers.new ≡ over (numbers_of bytes.now count) numbers.old }
{
    // By index: two bytes are read for each number, and the numbers past the count stay.
    for i in 0..count {
        numbers[i] = i16::from_le_bytes([bytes[2 * i], bytes[2 * i + 1]]);
    }
}

// Reads a little-endian number, or none where the input ends before its last byte. Any may come, so there is
// nothing that a contract could say.
pub fn read_u32<R: Read>(input: &mut R) -> io::Result<Option<u32>> {
    let mut bytes = [0u8; 4];
    if read_full(input, &mut bytes)? < bytes.len() {
        return Ok(None);
    }
    Ok(Some(u32::from_le_bytes(bytes)))
}

// The number as a signed one: its upper half is negative.
pub fn i32_of(n: u32) -> i32
    ensures { result ≡ to_z w32 n }
{
    n.cast_signed()
}

// Reads the size of a part, which is whole as far as it is read where there is room for so many.
fn read_size<R: Read>(input: &mut R, room: usize) -> io::Result<Part>
    ensures { IfOk result (λ part. stored part ≤ room) }
{
    let Some(n) = read_u32(input)? else {
        return Ok(Part::Missing);
    };
    let size = n as usize;
    if room < size {
        return Ok(Part::TooLong);
    }
    Ok(Part::Whole(size))
}

// The part of that size of which so many elements came.
fn part_of(came: usize, size: usize) -> Part
    ensures { stored result ≡ size }
{
    if came < size {
        return Part::Cut(size);
    }
    Part::Whole(size)
}

// Reads a part: its size, and then so many elements by `read`, which answers how many came. An error is the
// size's, which changes nothing, or that of `read` on as many elements as the part states.
fn read_part_by<R: Read, T, F: FnOnce(&mut R, &mut [T]) -> io::Result<usize>>(
    input: &mut R,
    part: &mut [T],
    read: F,
) -> io::Result<Part>
    requires { F.IsAlwaysCallable read }
    ensures read { IfOk result (λ answer. PartRead answer part.new part.old) }
    ensures err { OnErr result ((part.new ≡ part.old) ⊎ FailedBy F.FnOnce read part.new part.old) }
{
    let stated = read_size(input, part.len())?;
    let Part::Whole(size) = stated else {
        return Ok(stated);
    };
    Ok(part_of(read(input, &mut part[..size])?, size))
}

// Reads a part of bytes. How much of the buffer an error leaves is not known outside: the size that the
// part states came from the input.
pub fn read_part<R: Read>(input: &mut R, part: &mut [u8]) -> io::Result<Part>
    ensures read { IfOk result (λ answer. PartRead answer part.new part.old) }
    ensures err { OnErr result (length part.new ≡ length part.old) }
{
    read_part_by(input, part, |input, bytes| read_full(input, bytes))
}

// Reads a part of 16-bit numbers, of which at most 4,096 come.
pub fn read_i16_part<R: Read>(input: &mut R, numbers: &mut [i16]) -> io::Result<Part>
    ensures read { IfOk result (λ answer. PartRead answer numbers.new numbers.old) }
    ensures err { OnErr result (numbers.new ≡ numbers.old) }
{
    read_part_by(
        input,
        numbers,
        |input, front| Ok(read_i16(input, front)? / 2),
    )
}

// Reads a part of 32-bit numbers. Of an error as read_part.
pub fn read_i32_part<R: Read>(input: &mut R, numbers: &mut [i32]) -> io::Result<Part>
    ensures read { IfOk result (λ answer. PartRead answer numbers.new numbers.old) }
    ensures err { OnErr result (length numbers.new ≡ length numbers.old) }
{
    read_part_by(input, numbers, |input, front| read_each(input, front))
}

// Reads one number after the other, and answers how many came.
fn read_each<R: Read>(input: &mut R, numbers: &mut [i32]) -> io::Result<usize>
    ensures { IfOk result (λ came. came ≤ length numbers.new) }
{
    let size = numbers.len();
    for (i, number) in numbers.iter_mut().enumerate() {
        let Some(n) = read_u32(input)? else {
            return Ok(i);
        };
        *number = i32_of(n);
    }
    Ok(size)
}
