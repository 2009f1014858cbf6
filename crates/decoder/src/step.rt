// One check in a round: its cut, its multiplier, its new copies and its new offsets.
ghost use Rattle.std.specs.Prelude.{◌≡◌, ◌≤◌, length};
ghost use Rattle.integers.specs.Linear.{Within};
ghost use Rattle.integers.specs.Sum.{AllWithin};
ghost use Rattle.rules.specs.Limits.{unit, offset_limit, step_limit, value_limit};
ghost use Rattle.rules.specs.Table.{at};
ghost use Rattle.rules.specs.Sound.{Below};
ghost use Rattle.rules.specs.Step.{move};
ghost use Rattle.rules.specs.Round.{values};
ghost use Rattle.multiplier_search.specs.Lifted.{Rising, MultiplierOf};
ghost use Rattle.decoder.specs.Stepped.{stepped_to, stepped, StepFits, MoveFits, Moved};

use super::mask::holds;
use super::multiplier::least_multiplier;
use limits::common::{DEGREE_6, DEGREE_8};
use spin::clip;

// What a check adds to the round's multipliers, masks and depths: zeros without a cut.
#[derive(Clone, Copy, Debug, PartialEq, Eq)]
pub struct Entry {
    pub multiplier: u32,
    pub mask: u32,
    pub depth: u32,
}

// The values of a check's members, "v = spin + y", in the offsets' place. By index: of what a `zip` over
// `iter_mut` writes a proof knows nothing.
fn add_spins(spins: &[i32], members: &[u16], offsets: &mut [i32])
    requires { (length offsets.old ≡ length members.now) × Below (length spins.now) members.now × AllWithin unit spins.now × AllWithin offset_limit offsets.old }
    ensures { offsets.new ≡ values (at spins.now) members.now offsets.old }
{
    for (i, offset) in offsets.iter_mut().enumerate() {
        *offset += spins[members[i] as usize];
    }
}

// The multiplier of a cut with these heights, and 0 of none.
fn multiplier_for(mask: u32, top: i32, heights: &[i32]) -> u32
    requires { (mask ≡ 0 → ⊥) → Rising heights.now top }
    ensures { MultiplierOf mask heights.now result }
{
    if mask == 0 {
        0
    } else {
        least_multiplier(heights, top)
    }
}

// A member's new copy: "clip(v + b) on V, clip(v − b) elsewhere".
fn moved(v: i32, t: bool, b: u32) -> i32
    requires { (Within value_limit v) × (b ≤ step_limit) }
    ensures { result ≡ move unit b t v }
{
    if t {
        clip(v + b as i32)
    } else {
        clip(v - b as i32)
    }
}

// The new copies z, and y = v - z in the place of v; z - y is added to the sum of the member. By index, for
// the same reason.
fn move_all(
    members: &[u16],
    mask: u32,
    b: u32,
    copies: &mut [i32],
    offsets: &mut [i32],
    sums: &mut [i32],
)
    requires { MoveFits b members.now copies.old offsets.old sums.old }
    ensures { Moved b mask members.now offsets.old sums.old copies.new offsets.new sums.new }
{
    for (i, offset) in offsets.iter_mut().enumerate() {
        let v = *offset;
        let z = moved(v, holds(mask, i), b);
        let y = v - z;
        copies[i] = z;
        *offset = y;
        sums[members[i] as usize] += z - y;
    }
}

// "On each check, v = spin + y per edge, and the cut search runs on v clipped." Without a cut the
// multiplier is 0, and the new copies are v clipped. The heights stand in the copies' place until then.
fn step_of(
    spins: &[i32],
    members: &[u16],
    copies: &mut [i32],
    offsets: &mut [i32],
    sums: &mut [i32],
) -> Entry
    requires { StepFits spins.now members.now copies.old offsets.old sums.old }
    ensures { stepped_to copies.new offsets.new sums.new result.multiplier result.mask result.depth
        ≡ stepped (at spins.now) members.now offsets.old sums.old }
{
    add_spins(spins, members, offsets);
    // As many heights as values, and at most 32: no refusal.
    let found = cut::see(offsets, copies).unwrap();
    let mask = found.mask;
    let b = multiplier_for(mask, found.top, copies);
    move_all(members, mask, b, copies, offsets, sums);
    Entry {
        multiplier: b,
        mask,
        depth: found.depth,
    }
}

// The same, with the common degrees by themselves: a call of known length needs no loop (docs/DECISIONS.md 33).
pub(crate) fn step(
    spins: &[i32],
    members: &[u16],
    copies: &mut [i32],
    offsets: &mut [i32],
    sums: &mut [i32],
) -> Entry
    requires { StepFits spins.now members.now copies.old offsets.old sums.old }
    ensures { stepped_to copies.new offsets.new sums.new result.multiplier result.mask result.depth
        ≡ stepped (at spins.now) members.now offsets.old sums.old }
{
    match members.len() {
        DEGREE_6 => step_of(
            spins,
            &members[..DEGREE_6],
            &mut copies[..DEGREE_6],
            &mut offsets[..DEGREE_6],
            sums,
        ),
        DEGREE_8 => step_of(
            spins,
            &members[..DEGREE_8],
            &mut copies[..DEGREE_8],
            &mut offsets[..DEGREE_8],
            sums,
        ),
        _ => step_of(spins, members, copies, offsets, sums),
    }
}
