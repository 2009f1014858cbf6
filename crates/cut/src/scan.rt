// One pass over a check's values: their signs and their heights, U less each size.
ghost use Rattle.std.specs.Prelude.{◌≡◌, [], ◌+◌, ◌*◌, ◌^◌, ◌≤◌, ◌<◌, pos, length};
ghost use Rattle.integers.specs.Linear.{◌⩽◌};
ghost use Rattle.rules.specs.Limits.{unit, max_degree};
ghost use Rattle.rules.specs.Mask.{digit};
ghost use Rattle.rules.specs.Cut.{is_neg};
ghost use Rattle.rules.specs.Buffers.{over};
ghost use Rattle.cut.specs.Heights.{height, highest};
ghost use Rattle.cut.specs.Scan.{scanned, sights, Scanned};

use super::above;
use limits::UNIT;

// The least height that a 32-bit value has.
const FLOOR: i32 = UNIT + i32::MIN;

// The height of the value x. No value is too large for it.
fn height_of(x: i32) -> i32
    ensures { result ≡ height (is_neg x) x }
{
    if x < 0 { UNIT + x } else { UNIT - x }
}

// Bit k alone.
pub(crate) fn bit(k: usize) -> u32
    requires { k < max_degree }
    ensures { result ≡ 2 ^ k }
{
    1 << k
}

// Bit k if x is negative.
fn sign_bit(x: i32, k: usize) -> u32
    requires { k < max_degree }
    ensures { result ≡ digit (is_neg x) * 2 ^ k }
{
    if x < 0 { bit(k) } else { 0 }
}

// The negative values as a mask, the sum of the heights above 0, the greatest height and the first
// place that has it.
#[derive(Clone, Copy, Debug, PartialEq, Eq)]
pub struct Scan {
    pub mask: u32,
    pub room: u32,
    pub top: i32,
    pub place: usize,
}

impl Scan {
    // No value yet: none has a height below the least.
    fn new() -> Scan
        ensures { (result.mask ≡ 0) × (result.room ≡ 0) × (result.top ≡ highest []) × (result.place ≡ 0) }
    {
        Scan {
            mask: 0,
            room: 0,
            top: FLOOR,
            place: 0,
        }
    }

    // With value k, of height h.
    fn with(self, x: i32, h: i32, k: usize) -> Scan
        requires { (k < max_degree) × (self.mask < 2 ^ k) × (self.room ≤ unit * k) × (h ⩽ pos unit) }
        ensures { result ≡ scanned self x h k }
    {
        let mask = self.mask | sign_bit(x, k);
        let room = self.room + above(h);
        if self.top < h {
            Scan {
                mask,
                room,
                top: h,
                place: k,
            }
        } else {
            Scan { mask, room, ..self }
        }
    }
}

// All values, with their heights left in `heights`.
pub(crate) fn scan_values(v: &[i32], heights: &mut [i32]) -> Scan
    requires { (length v.now ≤ length heights.old) × (length v.now ≤ max_degree) }
    ensures { Scanned v.now result × (heights.new ≡ over (sights v.now) heights.old) }
{
    let mut s = Scan::new();
    for (i, &x) in v.iter().enumerate() {
        let h = height_of(x);
        heights[i] = h;
        s = s.with(x, h, i);
    }
    s
}
