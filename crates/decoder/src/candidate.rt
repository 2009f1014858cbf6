// The candidate of a round (document 01, "One round", step 4): whether there is one, and whether it meets all checks.
ghost use Rattle.std.specs.Prelude.{◌≡◌, length};
ghost use Rattle.rules.specs.Table.{at, bits_at};
ghost use Rattle.rules.specs.Sound.{Below};
ghost use Rattle.rules.specs.Parity.{odd, meets};
ghost use Rattle.rules.specs.Cut.{negatives};
ghost use Rattle.rules.specs.Round.{candidate};
ghost use Rattle.decoder.specs.Closing.{met_by};

use limits::common::{DEGREE_6, DEGREE_8};
use spin::all_decided;
use table::loaded::Loaded;

// Whether an odd number of the members have negative spins.
#[tactic(auto, using(rules::proofs::Duality::below_at))]
fn is_odd_of(members: &[u16], spins: &[i32]) -> bool
    requires { Below (length spins.now) members.now }
    ensures { result ≡ odd (bits_at (negatives spins.now) members.now) }
{
    let mut odd = false;
    for i in members {
        odd ^= spins[*i as usize] < 0;
    }
    odd
}

// The same, with the common degrees by themselves: for a call of known length the compiler writes no loop (docs/DECISIONS.md 33).
fn is_odd(members: &[u16], spins: &[i32]) -> bool
    requires { Below (length spins.now) members.now }
    ensures { result ≡ odd (bits_at (negatives spins.now) members.now) }
{
    match members.len() {
        DEGREE_6 => is_odd_of(&members[..DEGREE_6], spins),
        DEGREE_8 => is_odd_of(&members[..DEGREE_8], spins),
        _ => is_odd_of(members, spins),
    }
}

// Whether the number of negative spins is even on every check.
fn all_even(table: &Loaded, spins: &[i32]) -> bool
    requires { length spins.now ≡ table.now.bits }
    ensures { result ≡ meets (negatives spins.now) table.now.checks }
{
    let members = table.members;
    let mut a: usize = 0;
    for end in &table.starts[1..] {
        let e = *end as usize;
        if is_odd(&members[a..e], spins) {
            return false;
        }
        a = e;
    }
    true
}

// There is a candidate, and it meets all checks.
pub(crate) fn meets_checks(table: &Loaded, spins: &[i32]) -> bool
    requires { length spins.now ≡ table.now.bits }
    ensures { result ≡ met_by (candidate (length spins.now) (at spins.now)) table.now.checks }
{
    all_decided(spins) && all_even(table, spins)
}
