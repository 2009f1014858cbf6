// One check of a loaded table: the spins at its members, and their cut.
ghost use Rattle.std.specs.Prelude.{◌≡◌, ◌++◌, ◌≤◌, length, drop};
ghost use Rattle.rules.specs.Limits.{unit, max_degree};
ghost use Rattle.rules.specs.Table.{at, values_at};
ghost use Rattle.rules.specs.Sound.{Below};
ghost use Rattle.rules.specs.Step.{clips};
ghost use Rattle.cut.specs.CutMask.{CutIs};
ghost use Rattle.cut.specs.Search.{spins_at};

use super::{Cut, see};
use limits::MAX_DEGREE;
use table::loaded::Loaded;

// The spins at the members, from the front of `values` on.
fn gather(spins: &[i32], members: &[u16], values: &mut [i32])
    requires { (length members.now ≤ length values.old) × Below (length spins.now) members.now }
    ensures { values.new ≡ values_at (at spins.now) members.now ++ drop (length members.now) values.old }
{
    for (k, &member) in members.iter().enumerate() {
        values[k] = spins[usize::from(member)];
    }
}

// The cut of a check with these members.
fn members_cut(members: &[u16], spins: &[i32]) -> Cut
    requires { (length members.now ≤ max_degree) × Below (length spins.now) members.now }
    ensures { CutIs (clips unit (values_at (at spins.now) members.now)) result.mask result.depth }
{
    let d = members.len();
    let mut values = [0i32; MAX_DEGREE];
    gather(spins, members, &mut values);
    let mut heights = [0i32; MAX_DEGREE];
    see(&values[..d], &mut heights).unwrap()
}

// The cut of check j; past the last check that of no spins.
pub(crate) fn check_cut(table: &Loaded, spins: &[i32], j: usize) -> Cut
    requires { length spins.now ≡ table.now.bits }
    ensures { CutIs (clips unit (spins_at table.now spins.now j)) result.mask result.depth }
{
    members_cut(table.members(j), spins)
}
