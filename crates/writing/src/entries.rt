// A certificate's count, scale, contents and bodies.
ghost use Rattle.std.specs.Prelude.{◌≡◌, ◌++◌, ◌+◌, ◌*◌, ◌≤◌, length};
ghost use Rattle.std.proofs.lemmas.List.Edits.{sets};
ghost use Rattle.rules.specs.Bytes.{le16, le32};
ghost use Rattle.rules.specs.Buffers.{over};
ghost use Rattle.writing.specs.Written.{if_cut, cuts_from, contents_from, bodies_from, certificate_from, PutAt};

use file_numbers::{put16, put32};

// "S 1 to 1,023": a run's certificate has scale 1.
const SCALE: usize = 1;

// q: how many masks are not 0.
fn count_cuts(masks: &[u32]) -> usize
    ensures { result ≡ cuts_from masks.now }
{
    masks.iter().filter(|mask| **mask != 0).count()
}

// Each loop's step is a function, so that the branches meet in its contract. `bytes` and `at` stay two
// parameters, as `put16` and `put32` take them: a cursor of both would state their contracts again.

// Check j's entry at byte `at`, if it has a cut; then the byte after it.
fn put_content(bytes: &mut [u8], at: usize, j: usize, b: u32, mask: u32) -> usize
    requires { at + 6 ≤ length bytes.old }
    ensures { PutAt bytes.old at (if_cut mask (le16 j ++ le32 b)) bytes.new result }
{
    if mask == 0 {
        return at;
    }
    put16(bytes, at, j);
    put32(bytes, at + 2, b);
    at + 6
}

// A check's mask at byte `at`, if it has a cut; then the byte after it.
fn put_body(bytes: &mut [u8], at: usize, mask: u32) -> usize
    requires { at + 4 ≤ length bytes.old }
    ensures { PutAt bytes.old at (if_cut mask (le32 mask)) bytes.new result }
{
    if mask == 0 {
        return at;
    }
    put32(bytes, at, mask);
    at + 4
}

// The contents from byte `from` on; then the byte after them.
fn write_contents(multipliers: &[u32], masks: &[u32], from: usize, bytes: &mut [u8]) -> usize
    requires { (length multipliers.now ≡ length masks.now) × (from + 6 * length masks.now ≤ length bytes.old) }
    ensures { PutAt bytes.old from (contents_from 0 multipliers.now masks.now) bytes.new result }
{
    let mut at = from;
    for (j, (b, mask)) in multipliers.iter().zip(masks).enumerate() {
        at = put_content(bytes, at, j, *b, *mask);
    }
    at
}

// The bodies from byte `from` on.
fn write_bodies(masks: &[u32], from: usize, bytes: &mut [u8])
    requires { from + 4 * length masks.now ≤ length bytes.old }
    ensures { bytes.new ≡ sets bytes.old from (bodies_from masks.now) }
{
    let mut at = from;
    for mask in masks {
        at = put_body(bytes, at, *mask);
    }
}

// The whole certificate, from the front.
pub(crate) fn write_entries(multipliers: &[u32], masks: &[u32], certificate: &mut [u8])
    requires { (length multipliers.now ≡ length masks.now) × (4 + 10 * length masks.now ≤ length certificate.old) }
    ensures { certificate.new ≡ over (certificate_from multipliers.now masks.now) certificate.old }
{
    put16(certificate, 0, count_cuts(masks));
    put16(certificate, 2, SCALE);
    let at = write_contents(multipliers, masks, 4, certificate);
    write_bodies(masks, at, certificate);
}
