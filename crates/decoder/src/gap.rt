// The gap of a round's multipliers, scale 1 (document 01, "Certificates"): reduced numbers, bound and agreement. The
// judge has such functions of its own, with a scale: what crosses a crate has no `requires` (docs/DECISIONS.md 26).
ghost use Rattle.std.specs.Prelude.{◌≡◌, [], ◌+◌, ◌*◌, ◌≤◌, ◌%◌, eqb, length, pos, ◌+ℤ◌};
ghost use Rattle.integers.specs.Linear.{Within};
ghost use Rattle.integers.specs.Product.{abs};
ghost use Rattle.integers.specs.Sum.{sum_to};
ghost use Rattle.rules.specs.Limits.{max_bits, max_degree, max_multiplier, frame_size, row_limit, size_limit, bound_limit};
ghost use Rattle.rules.specs.Table.{at};
ghost use Rattle.rules.specs.Parity.{turn, side, agreement};
ghost use Rattle.rules.specs.Cut.{is_neg, negatives};
ghost use Rattle.rules.specs.Scatter.{scatter_row, row_of, price_of, EachWithin, Put, AllPut};
ghost use Rattle.decoder.specs.Closing.{with_row, rows_on, bound_on, gap_on, RowFits, RowsFit, GapFits};

use limits::MAX_BITS;
use limits::common::DEGREE_6;
use table::loaded::Loaded;

// Codes up to this length have room of their own for the reduced numbers.
const FEW_BITS: usize = 512;

// A number with a member's weight: the multiplier b, added where the mask's lowest bit is 1 and subtracted where it is 0.
fn weighted(x: i64, b: u32, mask: u32) -> i64
    requires { Within (size_limit + row_limit) x × (b ≤ max_multiplier) }
    ensures { result ≡ x +ℤ side (eqb (mask % 2) 1) (pos b) }
{
    if mask % 2 == 1 {
        x + b as i64
    } else {
        x - b as i64
    }
}

// A check's weights, scattered to its members.
#[tactic(auto, using(rules::proofs::Duality::below_at))]
fn add_row_of(members: &[u16], b: u32, mask: u32, numbers: &mut [i64])
    requires { RowFits b members.now numbers.old }
    ensures { numbers.new ≡ scatter_row (row_of members.now b mask) numbers.old }
{
    let mut rest = mask;
    for i in members {
        let number = &mut numbers[*i as usize];
        *number = weighted(*number, b, rest);
        rest /= 2;
    }
}

// The same, with the common degree by itself, for the same reason as in candidate.rt.
fn add_row(members: &[u16], b: u32, mask: u32, numbers: &mut [i64])
    requires { RowFits b members.now numbers.old }
    ensures { numbers.new ≡ scatter_row (row_of members.now b mask) numbers.old }
{
    if members.len() == DEGREE_6 {
        add_row_of(&members[..DEGREE_6], b, mask, numbers);
    } else {
        add_row_of(members, b, mask, numbers);
    }
}

// A check's multiplier times (d - 2).
fn price_of(b: u32, d: usize) -> i64
    requires { (b ≤ max_multiplier) × (d ≤ max_degree) }
    ensures { result ≡ price_of b d }
{
    (b as i64) * (d as i64 - 2)
}

// A check's row, if its mask is not 0: its weights are scattered, and its price is returned.
fn add_check(members: &[u16], b: u32, mask: u32, numbers: &mut [i64]) -> i64
    requires { RowFits b members.now numbers.old }
    ensures { Put (with_row (eqb mask 0) (row_of members.now b mask) []) numbers.old numbers.new result }
{
    if mask == 0 {
        return 0;
    }
    add_row(members, b, mask, numbers);
    price_of(b, members.len())
}

// All rows: their weights are scattered, and the sum of their prices is returned.
fn add_rows(table: &Loaded, multipliers: &[u32], masks: &[u32], numbers: &mut [i64]) -> i64
    requires { RowsFit table.now multipliers.now masks.now numbers.old }
    ensures { AllPut (rows_on table.now multipliers.now masks.now) numbers.old numbers.new result }
{
    let starts = table.starts;
    let members = table.members;
    let mut sum = 0;
    let mut a: usize = 0;
    for (j, mask) in masks.iter().enumerate() {
        let e = starts[j + 1] as usize;
        sum += add_check(&members[a..e], multipliers[j], *mask, numbers);
        a = e;
    }
    sum
}

// The sum of the sizes.
fn sum_sizes(numbers: &[i64]) -> i64
    requires { (length numbers.now ≤ max_bits) × EachWithin size_limit numbers.now }
    ensures { (result ≡ sum_to (length numbers.now) (λ i. abs (at numbers.now i))) × Within (max_bits * size_limit) result }
{
    let mut sum = 0;
    for x in numbers {
        sum += x.abs();
    }
    sum
}

// The frame's numbers, to begin with. By index: of what a `zip` over `iter_mut` writes a proof knows nothing.
fn load(frame: &[i16], numbers: &mut [i64])
    requires { length frame.now ≡ length numbers.old }
    ensures { numbers.new ≡ frame.now }
{
    for (i, number) in numbers.iter_mut().enumerate() {
        *number = frame[i] as i64;
    }
}

// A frame's number, negated under a negative spin.
fn turned(x: i16, spin: i32) -> i32
    ensures { (result ≡ turn (is_neg spin) x) × Within frame_size result }
{
    if spin < 0 { -(x as i32) } else { x as i32 }
}

// The agreement of the word with ones at negative spins. Its sum fits 32 bits, which takes fewer instructions than 64.
fn agreed(frame: &[i16], spins: &[i32]) -> i64
    requires { (length frame.now ≡ length spins.now) × (length spins.now ≤ max_bits) }
    ensures { (result ≡ agreement (length spins.now) frame.now (negatives spins.now)) × Within (max_bits * frame_size) result }
{
    let mut sum = 0;
    for (x, spin) in frame.iter().zip(spins) {
        sum += turned(*x, *spin);
    }
    sum as i64
}

// The bound: the sizes of the reduced numbers, which are worked out in the last slice, and the prices.
fn bound_of(
    frame: &[i16],
    table: &Loaded,
    multipliers: &[u32],
    masks: &[u32],
    numbers: &mut [i64],
) -> i64
    requires { RowsFit table.now multipliers.now masks.now frame.now × (length numbers.old ≡ length frame.now) × (length numbers.old ≤ max_bits) }
    ensures { (result ≡ bound_on frame.now table.now multipliers.now masks.now) × Within bound_limit result }
{
    load(frame, numbers);
    let prices = add_rows(table, multipliers, masks, numbers);
    sum_sizes(numbers) + prices
}

// The gap of the word with ones at the negative spins; the last slice is for the reduced numbers.
fn gap_in(
    frame: &[i16],
    table: &Loaded,
    spins: &[i32],
    multipliers: &[u32],
    masks: &[u32],
    numbers: &mut [i64],
) -> i64
    requires gap_fits { GapFits table.now frame.now spins.now multipliers.now masks.now }
    requires numbers_len { (length numbers.old ≡ length frame.now) × (length numbers.old ≤ max_bits) }
    ensures { result ≡ gap_on frame.now spins.now table.now multipliers.now masks.now }
{
    let least = bound_of(frame, table, multipliers, masks, numbers);
    least - agreed(frame, spins)
}

// The same, with room of its own: less of it for a short code, since clearing it takes time in each round with a
// codeword. One function with the room's size as a const parameter took 0.4 instructions per edge and round more.
pub(crate) fn gap_of(
    frame: &[i16],
    table: &Loaded,
    spins: &[i32],
    multipliers: &[u32],
    masks: &[u32],
) -> i64
    requires { GapFits table.now frame.now spins.now multipliers.now masks.now }
    ensures { result ≡ gap_on frame.now spins.now table.now multipliers.now masks.now }
{
    let n = table.bits;
    if n <= FEW_BITS {
        let mut numbers = [0i64; FEW_BITS];
        let room = &mut numbers[..n];
        gap_in(frame, table, spins, multipliers, masks, room)
    } else {
        let mut numbers = [0i64; MAX_BITS];
        let room = &mut numbers[..n];
        gap_in(frame, table, spins, multipliers, masks, room)
    }
}
