// In how many checks each bit stands.
ghost use Rattle.std.specs.Prelude.{◌≡◌, ℕ, ◌≤◌, ◌<◌, get_or};
ghost use Rattle.rules.specs.Limits.{max_bits, max_edges};
ghost use Rattle.rules.specs.Table.{degree_of};
ghost use Rattle.rules.specs.CodeFile.{bits_right};
ghost use Rattle.table.specs.Entries.{members_of};

use super::bodies::Members;
use super::numbers::in_range;
use limits::{MAX_BIT_DEGREE, MAX_BITS};

// The degree of each bit among the members.
#[tactic(auto, using(crate::proofs::DegreesLaws::counted_steps))]
pub(crate) fn bit_degrees(members: &Members) -> [u16; MAX_BITS]
    requires { members.now.count ≤ max_edges }
    ensures { (i : ℕ) → i < max_bits → get_or result i 0 ≡ degree_of i (members_of members.now) }
{
    let mut degrees = [0u16; MAX_BITS];
    for k in 0..members.count {
        let x = members.get(k);
        if x < MAX_BITS {
            degrees[x] += 1;
        }
    }
    degrees
}

// The first n degrees are 1 to 32, tested without an early end.
#[tactic(auto, using(crate::proofs::DegreesLaws::bits_steps))]
pub(crate) fn degrees_right(degrees: &[u16; MAX_BITS], n: usize) -> bool
    requires { n ≤ max_bits }
    ensures { result ≡ bits_right (λ i. get_or degrees.now i 0) 0 n }
{
    let mut all = true;
    for degree in &degrees[..n] {
        all &= in_range(1, MAX_BIT_DEGREE, usize::from(*degree));
    }
    all
}

// "Each bit stands in 1 to 32 checks."
#[tactic(auto, using(crate::proofs::DegreesLaws::bits_same_steps))]
pub(crate) fn bits_right(members: &Members, n: usize) -> bool
    requires { (members.now.count ≤ max_edges) × (n ≤ max_bits) }
    ensures { result ≡ bits_right (λ i. degree_of i (members_of members.now)) 0 n }
{
    let degrees = bit_degrees(members);
    degrees_right(&degrees, n)
}
