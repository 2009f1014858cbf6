// A code file written from a table's counts and members (document 01, "Code file").
#![tactic(auto)]

ghost use Rattle.std.specs.Prelude.{◌≡◌, [], ◌∷◌, ◌≤◌, length};
ghost use Rattle.std.proofs.lemmas.List.Edits.{sets};
ghost use Rattle.rules.specs.Limits.{max_checks, max_edges, contents_end, file_length};
ghost use Rattle.rules.specs.Buffers.{over};
ghost use Rattle.rules.specs.FileBytes.{bytes16, content_numbers, file_from};
ghost use Rattle.code_writer.specs.Written.{written_of, file_written};

use file_numbers::put16;
use limits::refusals::Refusal;
use limits::{MAX_CHECKS, MAX_EDGES};

// One check's start and count.
fn put_content(file: &mut [u8], at: usize, start: usize, count: usize)
    requires { at ≤ contents_end max_checks }
    ensures { file.new ≡ sets file.old at (bytes16 (start ∷ count ∷ [])) }
{
    put16(file, at, start);
    put16(file, at + 2, count);
}

// "Start of check 0 is 0; each later start is the previous start plus count."
fn write_contents(counts: &[u16], file: &mut [u8])
    requires { length counts.now ≤ max_checks }
    ensures { file.new ≡ sets file.old 4 (bytes16 (content_numbers 0 counts.now)) }
{
    let mut start = 0;
    for (j, count) in counts.iter().enumerate() {
        let count = usize::from(*count);
        put_content(file, 4 + 4 * j, start, count);
        start += count;
    }
}

// The members, from byte `from` on.
fn write_members(members: &[u16], from: usize, file: &mut [u8])
    requires { (length members.now ≤ max_edges) × (from ≤ contents_end max_checks) }
    ensures { file.new ≡ sets file.old from (bytes16 members.now) }
{
    for (k, member) in members.iter().enumerate() {
        put16(file, from + 2 * k, usize::from(*member));
    }
}

// The whole file, from the front.
fn write_file(bits: u16, counts: &[u16], members: &[u16], file: &mut [u8])
    requires { (length counts.now ≤ max_checks) × (length members.now ≤ max_edges) × (file_length (length counts.now) (length members.now) ≤ length file.old) }
    ensures { file.new ≡ over (file_from bits counts.now members.now) file.old }
{
    let m = counts.len();
    put16(file, 0, usize::from(bits));
    put16(file, 2, m);
    write_contents(counts, file);
    write_members(members, 4 + 4 * m, file);
}

// Writes the code file of n bits with these counts and members, one check's after the other's, to the
// front of `file`, and answers how long it is. Whether it is one that `table` accepts is the table's
// affair: counts and members of a table within the limits are (proofs/Accepted).
#[tactic(auto, unfolding(crate::specs::Written::file_written, rules::specs::Refusal::must))]
pub fn write(bits: u16, counts: &[u16], members: &[u16], file: &mut [u8]) -> Result<usize, Refusal>
    ensures { (record { answer = written_of result; bytes = file.new })
        ≡ file_written bits counts.now members.now file.old }
{
    if MAX_CHECKS < counts.len() {
        return Err(Refusal::SizeRange);
    }
    if MAX_EDGES < members.len() {
        return Err(Refusal::StartWrong);
    }
    let size = 4 + 4 * counts.len() + 2 * members.len();
    if file.len() < size {
        return Err(Refusal::BufferShort);
    }
    write_file(bits, counts, members, file);
    Ok(size)
}
