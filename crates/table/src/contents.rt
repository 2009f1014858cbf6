// The contents: m entries of start and count.
ghost use Rattle.std.specs.Prelude.{◌≡◌, ◌&&◌, ◌≤◌, ◌<◌, leb, length};
ghost use Rattle.rules.specs.Limits.{max_checks, max_edges, contents_end};
ghost use Rattle.rules.specs.Bytes.{u16_limit};
ghost use Rattle.rules.specs.CodeFile.{content_at, counts_right, starts_right, total_count};

use super::numbers::u16_at;
use limits::{MAX_DEGREE, MAX_EDGES};

// Where the contents of m checks end and the bodies begin.
pub(crate) fn contents_end(m: usize) -> usize
    requires { m ≤ max_checks }
    ensures { result ≡ contents_end m }
{
    4 + 4 * m
}

// A code file as far as its contents: the file has room for those of so many checks.
#[derive(Clone, Copy)]
pub(crate) struct Contents<'a> {
    pub(crate) code: &'a [u8],
    pub(crate) checks: usize,
    ghost fits: { contents_end checks ≤ length code.now },
    ghost few: { checks ≤ max_checks },
}

impl<'a> Contents<'a> {
    ghost use Rattle.table.specs.Entries.{entries_of};

    // The start of check j.
    fn start(&self, j: usize) -> usize
        requires { j < self.now.checks }
        ensures { result ≡ (content_at self.now.code.now j).start }
    {
        u16_at(self.code, 4 + 4 * j)
    }

    // The count of check j.
    pub(crate) fn count(&self, j: usize) -> usize
        requires { j < self.now.checks }
        ensures { (result ≡ (content_at self.now.code.now j).count) × (result < u16_limit) }
    {
        u16_at(self.code, 6 + 4 * j)
    }

    // Where the bodies begin.
    pub(crate) fn end(&self) -> usize
        ensures { result ≡ contents_end self.now.checks }
    {
        contents_end(self.checks)
    }

    // "Refusal 3 is for counts above 32 only."
    #[tactic(auto, using(crate::proofs::ContentsLaws::counts_steps))]
    pub(crate) fn counts_right(&self) -> bool
        ensures { result ≡ counts_right (entries_of self.now) }
    {
        for j in 0..self.checks {
            if MAX_DEGREE < self.count(j) {
                return false;
            }
        }
        true
    }

    // "Start of check 0 is 0; each later start is the previous start plus count", and "E at most 8,192".
    #[tactic(auto, using(crate::proofs::ContentsLaws::starts_steps))]
    pub(crate) fn starts_right(&self) -> bool
        ensures { result ≡ (starts_right 0 (entries_of self.now) && leb (total_count (entries_of self.now)) max_edges) }
    {
        let mut at = 0;
        for j in 0..self.checks {
            if self.start(j) != at {
                return false;
            }
            at += self.count(j);
        }
        at <= MAX_EDGES
    }

    // "E is the sum of counts."
    #[tactic(auto, using(crate::proofs::ContentsLaws::total_steps))]
    pub(crate) fn total_count(&self) -> usize
        ensures { result ≡ total_count (entries_of self.now) }
    {
        let mut e = 0;
        for j in 0..self.checks {
            e += self.count(j);
        }
        e
    }
}
