// The pass over all checks, in order.
ghost use Rattle.std.specs.Prelude.{length};
ghost use Rattle.rules.specs.Table.{at};
ghost use Rattle.decoder.specs.Passed.{passed, PassFits};
ghost use Rattle.decoder.specs.Parts.{one_passed, OneFits};
ghost use Rattle.decoder.specs.Lent.{PassBecomes};

use super::step::step;
use table::loaded::Loaded;

// Check j, whose edges are those from a to e: its copies and offsets are handed on as that part.
fn pass_one(
    j: usize,
    a: usize,
    e: usize,
    members: &[u16],
    spins: &[i32],
    copies: &mut [i32],
    offsets: &mut [i32],
    sums: &mut [i32],
    multipliers: &mut [u32],
    masks: &mut [u32],
    depths: &mut [u32],
)
    requires { OneFits j a e spins.now members.now copies.old offsets.old sums.old multipliers.old masks.old depths.old }
    ensures { PassBecomes (one_passed (at spins.now) members.now j a e) copies offsets sums multipliers masks depths }
{
    let entry = step(
        spins,
        &members[a..e],
        &mut copies[a..e],
        &mut offsets[a..e],
        sums,
    );
    multipliers[j] = entry.multiplier;
    masks[j] = entry.mask;
    depths[j] = entry.depth;
}

// All checks, as a loaded table has them: steps 2 and 3 of a round. Each check's edges begin where
// those of the one before it end. By index, since several slices are written at the check's place.
pub(crate) fn pass(
    table: &Loaded,
    spins: &[i32],
    copies: &mut [i32],
    offsets: &mut [i32],
    sums: &mut [i32],
    multipliers: &mut [u32],
    masks: &mut [u32],
    depths: &mut [u32],
)
    requires { PassFits table.now spins.now copies.old offsets.old sums.old multipliers.old masks.old depths.old }
    ensures { PassBecomes (λ p. passed (at spins.now) table.now.checks p.offsets p.sums)
        copies offsets sums multipliers masks depths }
{
    let starts = table.starts;
    let members = table.members;
    for j in 0..masks.len() {
        pass_one(
            j,
            starts[j] as usize,
            starts[j + 1] as usize,
            members,
            spins,
            copies,
            offsets,
            sums,
            multipliers,
            masks,
            depths,
        );
    }
}
