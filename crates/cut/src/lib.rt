// The cut search of document 01: the violated odd set of a check's values as a mask, and its depth.
#![tactic(auto)]

mod check;
mod scan;

ghost use Rattle.std.specs.Prelude.{◌≡◌, cond, ◌+◌, ◌-◌, ◌*◌, ◌<◌, eqb, ltb, pos, length, set};
ghost use Rattle.integers.specs.Linear.{up, ◌⩽◌, Within};
ghost use Rattle.rules.specs.Limits.{unit, max_degree};
ghost use Rattle.rules.specs.Table.{checks_of};
ghost use Rattle.rules.specs.Cut.{mask_answer, cut_answer};
ghost use Rattle.limits.specs.Numbers.{refusal_of};
ghost use Rattle.cut.specs.Heights.{seen_to, seen};
ghost use Rattle.cut.specs.Scan.{changes, decided};
ghost use Rattle.cut.specs.Reply.{found_of, seen_of};
ghost use Rattle.cut.specs.Search.{search_refusal, search_on};

use check::check_cut;
use limits::refusals::Refusal;
use limits::{MAX_DEGREE, RIGHT_SIDE, UNIT};
use scan::{Scan, bit, scan_values};
use std::hint::select_unpredictable;
use table::loaded::{Loaded, Room};

// The cut's mask and depth, or 0 and 0 for none, as buffers hold them, and the greatest height as it sees
// the members.
#[derive(Clone, Copy, Debug, PartialEq, Eq)]
pub struct Cut {
    pub mask: u32,
    pub depth: u32,
    pub top: i32,
}

// The violated set, and by how much it falls short.
#[derive(Clone, Copy, Debug, PartialEq, Eq)]
pub struct Violation {
    pub mask: u32,
    pub depth: u32,
}

// What a height adds to a left side: 0 for a negative one.
pub(crate) fn above(h: i32) -> u32
    ensures { result ≡ up h }
{
    h.max(0) as u32
}

// The set, where its left side is below 2U.
fn when_violated(left: u32, mask: u32) -> u32
    ensures { result ≡ cond (ltb left (2 * unit)) mask 0 }
{
    if left < RIGHT_SIDE { mask } else { 0 }
}

// By how much a set with this left side falls short; 0 where there is none. It asks for the mask, as the
// search for the multiplier does, so that one test serves both.
fn depth_of(mask: u32, left: u32) -> u32
    requires { (mask ≡ 0 → ⊥) → left < 2 * unit }
    ensures { result ≡ cond (eqb mask 0) 0 (2 * unit - left) }
{
    if mask == 0 { 0 } else { RIGHT_SIDE - left }
}

// x in place k. A pass over all places with a choice in each: a store at a place that is known late
// would hold up the reads that follow it. An `if` in the choice's place is compiled to a branch on each
// place, since a store of what is there already is left out.
fn put(heights: &mut [i32], k: usize, x: i32)
    ensures { heights.new ≡ set heights.old k x }
{
    for (i, height) in heights.iter_mut().enumerate() {
        *height = select_unpredictable(i == k, x, *height);
    }
}

// The member with the greatest height changes sides: U less its size becomes U and its size.
fn change_side(s: Scan, depth: u32, heights: &mut [i32]) -> Cut
    requires { (s.place < max_degree) × (s.place < length heights.old) × Within unit s.top }
    ensures { seen_to 0 result.mask result.depth result.top heights.new ≡ changes depth s heights.old }
{
    let k = s.place;
    let height = s.top;
    let raised = 2 * UNIT - height;
    put(heights, k, raised);
    Cut {
        mask: s.mask ^ bit(k),
        depth,
        top: raised,
    }
}

// "V is the negative spins; if its size is even, the member with smallest absolute spin changes
// sides": twice that size is 2U less twice the greatest height, so the heights' sum is compared with
// the latter, and falls as far short of it as the changed set's left side falls short of 2U.
fn decide(s: Scan, heights: &mut [i32]) -> Cut
    requires { (s.place < max_degree) × (s.top ⩽ pos unit) × (s.room < 2 * up s.top → s.place < length heights.old) }
    ensures { seen_to 0 result.mask result.depth result.top heights.new ≡ decided s heights.old }
{
    if s.mask.count_ones() % 2 == 1 {
        let mask = when_violated(s.room, s.mask);
        return Cut {
            mask,
            depth: depth_of(mask, s.room),
            top: s.top,
        };
    }
    let right = 2 * above(s.top);
    if s.room < right {
        return change_side(s, right - s.room, heights);
    }
    Cut {
        mask: 0,
        depth: 0,
        top: s.top,
    }
}

// The cut of a check's values clipped: its mask and depth, or 0 and 0, each member's height as the cut
// sees it, left in `heights`, and the greatest of them. More than 32 values are refused, and less room
// than values.
#[tactic(auto, unfolding(crate::specs::Heights::seen))]
pub fn see(v: &[i32], heights: &mut [i32]) -> Result<Cut, Refusal>
    ensures { seen_of result heights.new ≡ seen v.now heights.old }
{
    if MAX_DEGREE < v.len() {
        return Err(Refusal::CountRange);
    }
    if heights.len() < v.len() {
        return Err(Refusal::BufferShort);
    }
    let s = scan_values(v, heights);
    Ok(decide(s, heights))
}

// The point and the check number of a search, or refusal 16 or 17.
#[tactic(auto, unfolding(crate::specs::Search::search_refusal))]
fn admit(table: &Loaded, spins: &[i32], check: usize) -> Result<(), Refusal>
    ensures { refusal_of result ≡ search_refusal table.now.bits (checks_of table.now) spins.now check }
{
    inputs::point(spins, table.bits())?;
    if table.checks() <= check {
        return Err(Refusal::AskedTooMuch);
    }
    Ok(())
}

// The search on a loaded table. No odd set has mask 0.
fn search_table(table: &Loaded, spins: &[i32], check: usize) -> Result<Option<Violation>, Refusal>
    ensures { found_of result ≡ mask_answer (search_on table.now spins.now check) }
{
    admit(table, spins, check)?;
    let Cut { mask, depth, .. } = check_cut(table, spins, check);
    if mask == 0 {
        return Ok(None);
    }
    Ok(Some(Violation { mask, depth }))
}

// The cut search on any bytes, any spins and any check number.
pub fn search(code: &[u8], spins: &[i32], check: usize) -> Result<Option<Violation>, Refusal>
    ensures { found_of result ≡ cut_answer code.now spins.now check }
{
    let mut room = Room::new();
    let table = room.load(code)?;
    search_table(&table, spins, check)
}
