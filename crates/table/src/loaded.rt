// A code file's table, loaded: check j's members stand among all members from start j to the next.
ghost use Rattle.std.specs.Prelude.{◌≡◌, ◌≤◌, length};
ghost use Rattle.rules.specs.Limits.{max_bits, max_degree};
ghost use Rattle.rules.specs.Refusal.{then};
ghost use Rattle.rules.specs.Table.{checks_of};
ghost use Rattle.rules.specs.Sound.{Below};
ghost use Rattle.rules.specs.CodeFile.{code_file};
ghost use Rattle.rules.specs.Certificate.{members_at};
ghost use Rattle.limits.specs.Numbers.{answer_by};
ghost use Rattle.table.specs.Loaded.{with_room};

use super::load;
use limits::refusals::Refusal;
use limits::{MAX_CHECKS, MAX_EDGES};
use std::marker::Model;

// A clause sees the table. The fields are public, so that a caller who holds a table can say so, and so that
// inner loops read them as they are: what they must hold is the invariant.
#[derive(Drop)]
pub struct Loaded<'a> {
    pub bits: usize,
    pub starts: &'a [u16],
    pub members: &'a [u16],
}

impl<'a> Model for Loaded<'a> {
    ghost use Rattle.rules.specs.Table.{Table};
    ghost use Rattle.table.specs.Layout.{table_of, Holds};

    ghost Value = { Table };

    ghost view = { λ t. table_of t.bits t.starts.now t.members.now };

    ghost invariant = { λ t. Holds t.bits t.starts.now t.members.now };
}

impl<'a> Loaded<'a> {
    // Loads a code file into the two slices. 41 where one of them is too short for its table. Private, since
    // no clause can say what the slices hold once the table is let go.
    fn load(
        code: &[u8],
        starts: &'a mut [u16],
        members: &'a mut [u16],
    ) -> Result<Loaded<'a>, Refusal>
        ensures { answer_by (λ t. t) result ≡ then (code_file code.now) (with_room starts.old members.old) }
    {
        let sizes = load(code, starts, members)?;
        Ok(Loaded {
            bits: sizes.bits,
            starts: &starts[..=sizes.checks],
            members: &members[..sizes.edges],
        })
    }

    pub fn bits(&self) -> usize
        ensures { (result ≡ self.now.bits) × (self.now.bits ≤ max_bits) }
    {
        self.bits
    }

    pub fn checks(&self) -> usize
        ensures { result ≡ checks_of self.now }
    {
        self.starts.len() - 1
    }

    // Check j's members; none past the last check.
    pub fn members(&self, j: usize) -> &[u16]
        ensures { (result.now ≡ members_at self.now j) × (length result.now ≤ max_degree) × Below self.now.bits result.now }
    {
        if self.checks() <= j {
            return &[];
        }
        &self.members[self.starts[j] as usize..self.starts[j + 1] as usize]
    }
}

// Room for any table. It shows in nothing but the table that was loaded into it last.
#[derive(Drop)]
pub struct Room {
    starts: [u16; MAX_CHECKS + 1],
    members: [u16; MAX_EDGES],
}

impl Model for Room {
    ghost Value = { Unit };

    ghost view = { λ r. tt };
}

impl Room {
    pub fn new() -> Self {
        Room {
            starts: [0; MAX_CHECKS + 1],
            members: [0; MAX_EDGES],
        }
    }

    // Loads a code file.
    pub fn load(&mut self, code: &[u8]) -> Result<Loaded<'_>, Refusal>
        ensures { answer_by (λ t. t) result ≡ code_file code.now }
    {
        let Room { starts, members } = self;
        Loaded::load(code, starts, members)
    }
}
