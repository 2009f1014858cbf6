// A table that was accepted, written into the caller's slices: starts and members.
ghost use Rattle.std.specs.Prelude.{◌≡◌, ◌++◌, ◌+◌, ◌≤◌, ◌<◌, length, drop};
ghost use Rattle.rules.specs.Limits.{max_edges};
ghost use Rattle.rules.specs.CodeFile.{total_count};
ghost use Rattle.table.specs.Entries.{entries_of, bodies_of, members_of};
ghost use Rattle.table.specs.Starts.{starts_of};

use super::bodies::Members;
use super::contents::Contents;

// The starts of the m checks, and E after them.
#[tactic(auto, using(crate::proofs::FillLaws::starts_steps))]
pub(crate) fn write_starts(entries: &Contents, starts: &mut [u16])
    requires { (total_count (entries_of entries.now) ≤ max_edges) × (entries.now.checks < length starts.old) }
    ensures { starts.new ≡ starts_of 0 (bodies_of entries.now) ++ drop (entries.now.checks + 1) starts.old }
{
    let mut at = 0;
    for (j, start) in starts[..entries.checks].iter_mut().enumerate() {
        *start = at as u16;
        at += entries.count(j);
    }
    starts[entries.checks] = at as u16;
}

// The members.
#[tactic(auto, using(crate::proofs::FillLaws::members_steps))]
pub(crate) fn write_members(from: &Members, members: &mut [u16])
    requires { from.now.count ≤ length members.old }
    ensures { members.new ≡ members_of from.now ++ drop from.now.count members.old }
{
    for (k, member) in members[..from.count].iter_mut().enumerate() {
        *member = from.get(k) as u16;
    }
}
