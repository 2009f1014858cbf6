// The run's buffers, and what a script does to copies, offsets and sums alone.
use super::checksum::{FIRST, with};
use super::command::{Command, Fill};

pub(crate) const BITS: usize = 2100;

pub(crate) const EDGES: usize = 8300;

pub(crate) const CHECKS: usize = 2100;

pub(crate) const CERTIFICATE: usize = 20600;

#[derive(Drop)]
pub(crate) struct Buffers {
    pub spins: [i32; BITS],
    pub copies: [i32; EDGES],
    pub offsets: [i32; EDGES],
    pub sums: [i32; BITS],
    pub multipliers: [u32; CHECKS],
    pub masks: [u32; CHECKS],
    pub depths: [u32; CHECKS],
    pub word: [u8; BITS],
    pub certificate: [u8; CERTIFICATE],
}

impl Buffers {
    // In place: to give back 131,100 bytes by value takes room for them four times.
    pub(crate) fn fill(&mut self, fill: Fill) {
        self.spins.fill(fill.spin);
        self.copies.fill(fill.copy);
        self.offsets.fill(fill.offset);
        self.sums.fill(fill.sum);
        self.multipliers.fill(fill.multiplier);
        self.masks.fill(fill.mask);
        self.depths.fill(fill.depth);
        self.word.fill(fill.word);
        self.certificate.fill(fill.certificate);
    }

    // Of all whole buffers, the signed ones first.
    pub(crate) fn checksum(&self) -> u64 {
        let mut h = with(FIRST, &self.spins);
        h = with(h, &self.copies);
        h = with(h, &self.offsets);
        h = with(h, &self.sums);
        h = with(h, &self.multipliers);
        h = with(h, &self.masks);
        h = with(h, &self.depths);
        h = with(h, &self.word);
        with(h, &self.certificate)
    }

    // Buffer 1 is the copies, 2 the offsets, any other the sums.
    pub(crate) fn put(&mut self, command: Command) {
        let index = command.number(1) as usize;
        let value = command.signed(5);
        match command.fields[0] {
            1 => put_at(&mut self.copies, index, value),
            2 => put_at(&mut self.offsets, index, value),
            _ => put_at(&mut self.sums, index, value),
        }
    }
}

// Nothing where the buffer has no such index.
fn put_at(buffer: &mut [i32], index: usize, value: i32) {
    if let Some(place) = buffer.get_mut(index) {
        *place = value;
    }
}
