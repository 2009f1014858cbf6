// Reduced numbers, bound and gap. Each entry is put on its check's members, so the work is linear in
// the edges that the certificate names.
ghost use Rattle.std.specs.Prelude.{◌≡◌, [], ◌∷◌, ℕ, ◌%◌, ◌*◌, ◌≤◌, ◌<◌, eqb, length, pos, ◌*ℤ◌};
ghost use Rattle.integers.specs.Linear.{Within};
ghost use Rattle.integers.specs.Product.{abs};
ghost use Rattle.integers.specs.Sum.{sum_to};
ghost use Rattle.rules.specs.Limits.{max_bits, max_degree, max_scale, max_multiplier, frame_size, scaled_limit, size_limit, bound_limit};
ghost use Rattle.rules.specs.Table.{at, checks_of};
ghost use Rattle.rules.specs.Sound.{Below};
ghost use Rattle.rules.specs.Parity.{side};
ghost use Rattle.rules.specs.Scatter.{scatter_row, row_of, price_of, EachWithin, Scaled, Put, Adds, AllPut};
ghost use Rattle.rules.specs.Certificate.{items_of, row_at, rows_at};
ghost use Rattle.rules.specs.Sole.{none_zero};
ghost use Rattle.judge.specs.Items.{item_of};
ghost use Rattle.judge.specs.Rows.{InRange, EachInRange};
ghost use Rattle.judge.specs.Claims.{ReducedIn, bound_in, gap_in};

use super::claim::Claim;
use super::entries::{Certificate, Entry};
use table::loaded::Loaded;

// "S times l."
pub(crate) fn times(scale: usize, x: i64) -> i64
    requires { (scale ≤ max_scale) × Within (max_bits * frame_size) x }
    ensures { (result ≡ pos scale *ℤ x) × Within (max_scale * (max_bits * frame_size)) result }
{
    (scale as i64) * x
}

// The reduced numbers before any entry.
pub(crate) fn scale_frame(reduced: &mut [i64], frame: &[i16], scale: usize)
    requires { (length reduced.old ≡ length frame.now) × (scale ≤ max_scale) }
    ensures { (i : ℕ) → i < length frame.now → Scaled scale frame.now i (at reduced.new i) }
{
    // By an index, since nothing is known of what a zip over `iter_mut` has written.
    for (i, x) in frame.iter().enumerate() {
        reduced[i] = times(scale, i64::from(*x));
    }
}

// A multiplier, with the sign that the mask's lowest bit gives it.
pub(crate) fn weight(multiplier: u32, mask: u32) -> i64
    ensures { result ≡ side (eqb (mask % 2) 1) (pos multiplier) }
{
    if mask % 2 == 1 {
        multiplier as i64
    } else {
        -(multiplier as i64)
    }
}

// One multiplier on its check's members: "plus each multiplier whose mask holds the bit, minus each
// multiplier whose check holds the bit and whose mask doesn't".
pub(crate) fn put_on(reduced: &mut [i64], members: &[u16], multiplier: u32, mask: u32)
    requires { Below (length reduced.old) members.now × (length members.now ≤ max_degree) × (multiplier ≤ max_multiplier)
        × EachWithin size_limit reduced.old }
    ensures { reduced.new ≡ scatter_row (row_of members.now multiplier mask) reduced.old }
{
    let mut left = mask;
    for i in members {
        reduced[*i as usize] += weight(multiplier, left);
        left /= 2;
    }
}

// "Each multiplier times (d − 2)."
pub(crate) fn entry_price(multiplier: u32, d: usize) -> i64
    requires { (multiplier ≤ max_multiplier) × (d ≤ max_degree) }
    ensures { result ≡ price_of multiplier d }
{
    (multiplier as i64) * (d as i64 - 2)
}

// An entry put on its check's members. The answer is its price, the multiplier times (d − 2).
pub(crate) fn put_entry(reduced: &mut [i64], table: &Loaded, entry: Entry) -> i64
    requires { InRange (checks_of table.now) (item_of entry) × (length reduced.old ≡ table.now.bits) × EachWithin size_limit reduced.old }
    ensures { Put (row_at table.now (item_of entry) ∷ []) reduced.old reduced.new result × Adds (row_at table.now (item_of entry) ∷ []) }
{
    let members = table.members(entry.check);
    put_on(reduced, members, entry.multiplier, entry.mask);
    entry_price(entry.multiplier, members.len())
}

// All entries put on. The answer is the sum of their prices.
pub(crate) fn put_entries(reduced: &mut [i64], table: &Loaded, certificate: &Certificate) -> i64
    requires { EachInRange (checks_of table.now) certificate.now × (length reduced.old ≡ table.now.bits) × EachWithin scaled_limit reduced.old }
    ensures { AllPut (rows_at table.now (items_of certificate.now)) reduced.old reduced.new result }
{
    let mut total = 0;
    for k in 0..certificate.entries() {
        total += put_entry(reduced, table, certificate.entry(k));
    }
    total
}

// "Sum of absolute r."
pub(crate) fn sizes(reduced: &[i64]) -> i64
    requires { (length reduced.now ≤ max_bits) × EachWithin size_limit reduced.now }
    ensures { (result ≡ sum_to (length reduced.now) (λ i. abs (at reduced.now i))) × Within (max_bits * size_limit) result }
{
    let mut total = 0;
    for r in reduced {
        total += r.abs();
    }
    total
}

// "Bound B: sum of absolute r, plus each multiplier times (d − 2)." The reduced numbers are left in
// the slice.
pub(crate) fn bound_of(reduced: &mut [i64], claim: &Claim) -> i64
    requires { length reduced.old ≡ claim.now.table.now.bits }
    ensures { (result ≡ bound_in claim.now) × Within bound_limit result × ReducedIn claim.now reduced.new }
{
    scale_frame(reduced, claim.frame, claim.certificate.scale());
    let price = put_entries(reduced, claim.table, claim.certificate);
    sizes(reduced) + price
}

// "Gap: B − S × agreement." The reduced numbers are left in the slice.
pub(crate) fn gap_of(reduced: &mut [i64], claim: &Claim) -> i64
    requires { length reduced.old ≡ claim.now.table.now.bits }
    ensures { (result ≡ gap_in claim.now) × ReducedIn claim.now reduced.new }
{
    let bound = bound_of(reduced, claim);
    let agreed = inputs::agreement(claim.frame, claim.word);
    bound - times(claim.certificate.scale(), agreed)
}

// "Every reduced number differs from 0." The loop goes to the end, so that it can be done in wide
// steps.
pub(crate) fn none_zero(reduced: &[i64]) -> bool
    ensures { result ≡ none_zero (length reduced.now) (at reduced.now) }
{
    let mut none = true;
    for r in reduced {
        none &= *r != 0;
    }
    none
}
