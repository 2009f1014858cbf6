// In how many edges each bit stands.
ghost use Rattle.std.specs.Prelude.{◌≡◌, ℕ, ◌≤◌, ◌<◌, length, get_or};
ghost use Rattle.rules.specs.Limits.{max_bits, max_edges};
ghost use Rattle.rules.specs.Table.{degree_of};
ghost use Rattle.rules.specs.Sound.{Below};

use limits::MAX_BITS;

// The degree of each bit. Every member is below 2,048, so no test is needed.
#[tactic(auto, using(rules::proofs::Duality::below_at))]
pub(crate) fn count_degrees(members: &[u16]) -> [u16; MAX_BITS]
    requires { (length members.now ≤ max_edges) × Below max_bits members.now }
    ensures { (i : ℕ) → i < max_bits → get_or result i 0 ≡ degree_of i members.now }
{
    let mut degrees = [0u16; MAX_BITS];
    for i in members {
        degrees[*i as usize] += 1;
    }
    degrees
}
