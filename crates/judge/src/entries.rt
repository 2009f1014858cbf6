// A certificate's entries, and refusals 10 to 14.
ghost use Rattle.std.specs.Prelude.{◌≡◌, ◌≤◌, ◌<◌};
ghost use Rattle.rules.specs.Limits.{max_degree, max_scale, max_entries};
ghost use Rattle.rules.specs.Table.{checks_of};
ghost use Rattle.rules.specs.Mask.{mask_right};
ghost use Rattle.rules.specs.Certificate.{item_at, follows, entries_of, scale_of, items_of};
ghost use Rattle.std.proofs.Math.Option.{none};
ghost use Rattle.limits.specs.Numbers.{refusal_of, answer_by};
ghost use Rattle.judge.specs.Refusals.{degrees_of, item_refusal, items_refusal, certificate_read};
ghost use Rattle.judge.specs.Items.{item_of, item_before};

use super::numbers::{u16_at, u32_at};
use limits::refusals::Refusal;
use limits::{MAX_ENTRIES, MAX_MULTIPLIER, MAX_SCALE};
use std::marker::Model;
use table::loaded::Loaded;
use table::numbers::in_range;

#[derive(Clone, Copy, Debug, PartialEq, Eq)]
pub(crate) struct Entry {
    pub(crate) check: usize,
    pub(crate) multiplier: u32,
    pub(crate) mask: u32,
}

// A certificate as long as its entries ask, with a scale in its range. A clause sees the bytes.
#[derive(Drop)]
pub(crate) struct Certificate<'a> {
    bytes: &'a [u8],
    entries: usize,
    scale: usize,
}

impl<'a> Model for Certificate<'a> {
    ghost use Rattle.std.specs.Prelude.{◌≡◌, ◌≤◌, List, ℕ};
    ghost use Rattle.rules.specs.Limits.{max_scale};
    ghost use Rattle.rules.specs.Certificate.{entries_of, scale_of};
    ghost use Rattle.judge.specs.Refusals.{Long};

    ghost Value = { List ℕ };

    ghost view = { λ c. c.bytes.now };

    ghost invariant = { λ c. (c.entries ≡ entries_of c.bytes.now) × Long c.bytes.now c.entries
        × (c.scale ≡ scale_of c.bytes.now) × (c.scale ≤ max_scale) };
}

impl<'a> Certificate<'a> {
    // "10 certificate length wrong or q too large. 11 scale".
    pub(crate) fn read(bytes: &'a [u8]) -> Result<Certificate<'a>, Refusal>
        ensures { answer_by (λ c. c) result ≡ certificate_read bytes.now }
    {
        if bytes.len() < 4 {
            return Err(Refusal::CertificateWrong);
        }
        let entries = u16_at(bytes, 0);
        if MAX_ENTRIES < entries {
            return Err(Refusal::CertificateWrong);
        }
        if bytes.len() != 4 + 10 * entries {
            return Err(Refusal::CertificateWrong);
        }
        let scale = u16_at(bytes, 2);
        if !in_range(1, MAX_SCALE, scale) {
            return Err(Refusal::ScaleRange);
        }
        Ok(Certificate {
            bytes,
            entries,
            scale,
        })
    }

    // q
    pub(crate) fn entries(&self) -> usize
        ensures { (result ≡ entries_of self.now) × (result ≤ max_entries) }
    {
        self.entries
    }

    // S
    pub(crate) fn scale(&self) -> usize
        ensures { (result ≡ scale_of self.now) × (result ≤ max_scale) }
    {
        self.scale
    }

    pub(crate) fn entry(&self, k: usize) -> Entry
        requires { k < entries_of self.now }
        ensures { item_of result ≡ item_at self.now (entries_of self.now) k }
    {
        Entry {
            check: u16_at(self.bytes, 4 + 6 * k),
            multiplier: u32_at(self.bytes, 6 + 6 * k),
            mask: u32_at(self.bytes, 4 + 6 * self.entries + 4 * k),
        }
    }
}

// "A mask has an odd number of ones, all below the check's degree." In 64 bits, since at degree 32
// every bit of a mask is below the degree.
pub(crate) fn mask_right(d: usize, mask: u32) -> bool
    requires { d ≤ max_degree }
    ensures { result ≡ mask_right d mask }
{
    mask.count_ones() % 2 == 1 && (mask as u64) < 1u64 << d
}

// "Entries ascend strictly by check, then mask."
pub(crate) fn follows(before: Option<Entry>, entry: Entry) -> bool
    ensures { result ≡ follows (item_before before) (item_of entry) }
{
    match before {
        None => true,
        Some(b) => (b.check, b.mask) < (entry.check, entry.mask),
    }
}

// "12 entry's check or multiplier. 13 mask. 14 entry order".
pub(crate) fn entry_refusal(
    table: &Loaded,
    before: Option<Entry>,
    entry: Entry,
) -> Result<(), Refusal>
    ensures { refusal_of result ≡ item_refusal (checks_of table.now) (degrees_of table.now) (item_before before) (item_of entry) }
{
    if table.checks() <= entry.check {
        return Err(Refusal::EntryRange);
    }
    if !in_range(1, MAX_MULTIPLIER, entry.multiplier as usize) {
        return Err(Refusal::EntryRange);
    }
    if !mask_right(table.members(entry.check).len(), entry.mask) {
        return Err(Refusal::MaskWrong);
    }
    if !follows(before, entry) {
        return Err(Refusal::EntryOrder);
    }
    Ok(())
}

// "Entry by entry 12, 13, 14."
pub(crate) fn entries_refusal(table: &Loaded, certificate: &Certificate) -> Result<(), Refusal>
    ensures { refusal_of result ≡ items_refusal (checks_of table.now) (degrees_of table.now) none (items_of certificate.now) }
{
    let mut before = None;
    for k in 0..certificate.entries() {
        let entry = certificate.entry(k);
        entry_refusal(table, before, entry)?;
        before = Some(entry);
    }
    Ok(())
}
