// Whether what a call for rounds is lent is long enough: refusal 41.
ghost use Rattle.std.specs.Prelude.{◌≡◌, ◌≤◌, cond};
ghost use Rattle.rules.specs.Limits.{max_checks};
ghost use Rattle.rules.specs.Refusal.{buffer_short};
ghost use Rattle.rules.specs.Buffers.{needs_by, fits};
ghost use Rattle.limits.specs.Numbers.{refusal_of};
ghost use Rattle.run.specs.Slices.{lent_of};

use super::Lent;
use limits::refusals::Refusal;
use table::Sizes;

// "41 a lent buffer too short"
pub(crate) fn refuse_short(
    sizes: Sizes,
    lent: Lent,
    copies: &[i32],
    offsets: &[i32],
    sums: &[i32],
) -> Result<(), Refusal>
    requires { sizes.checks ≤ max_checks }
    ensures { refusal_of result
        ≡ cond (fits (needs_by sizes.bits sizes.checks sizes.edges) (lent_of lent copies.now offsets.now sums.now)) 0 buffer_short }
{
    if lent.spins < sizes.bits
        || copies.len() < sizes.edges
        || offsets.len() < sizes.edges
        || sums.len() < sizes.bits
        || lent.multipliers < sizes.checks
        || lent.masks < sizes.checks
        || lent.depths < sizes.checks
        || lent.word < sizes.bits
        || lent.certificate < 4 + 10 * sizes.checks
    {
        return Err(Refusal::BufferShort);
    }
    Ok(())
}
