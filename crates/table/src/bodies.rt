// The bodies: the members of each check, one check after the other.
ghost use Rattle.std.specs.Prelude.{◌≡◌, ◌+◌, ◌*◌, ◌≤◌, ◌<◌, length};
ghost use Rattle.rules.specs.Bytes.{u16_limit, u16_at};
ghost use Rattle.rules.specs.CodeFile.{numbers_at, ascends};

use super::numbers::u16_at;
use limits::common::DEGREE_6;

// Members in a row, from byte `at` of the code file on: those of one check, or of all.
#[derive(Clone, Copy)]
pub(crate) struct Members<'a> {
    pub(crate) code: &'a [u8],
    pub(crate) at: usize,
    pub(crate) count: usize,
    ghost within: { at + 2 * count ≤ length code.now },
}

impl<'a> Members<'a> {
    ghost use Rattle.table.specs.Entries.{members_of};

    // The k-th of them.
    pub(crate) fn get(&self, k: usize) -> usize
        requires { k < self.now.count }
        ensures { (result ≡ u16_at self.now.code.now (self.now.at + 2 * k)) × (result < u16_limit) }
    {
        u16_at(self.code, self.at + 2 * k)
    }

    // The first `count` of them are below n and "strictly ascending". The loop goes to the end, since an early
    // end would cost a branch for each number.
    #[tactic(auto, using(crate::proofs::BodiesLaws::ascends_steps))]
    fn first_ascend(&self, count: usize, n: usize) -> bool
        requires { count ≤ self.now.count }
        ensures { result ≡ ascends n 0 (numbers_at self.now.code.now self.now.at count) }
    {
        let mut all = true;
        let mut least = 0;
        for k in 0..count {
            let x = self.get(k);
            all &= (least <= x) & (x < n);
            least = x + 1;
        }
        all
    }

    // All of them are, the common degree being a known number where the loop is inlined.
    pub(crate) fn ascend(&self, n: usize) -> bool
        ensures { result ≡ ascends n 0 (members_of self.now) }
    {
        if self.count == DEGREE_6 {
            return self.first_ascend(DEGREE_6, n);
        }
        self.first_ascend(self.count, n)
    }
}
