// The limits of document 01, as in rules' Limits: their one place in the code.
#![tactic(auto)]

pub mod common;
pub mod refusals;

// U: spin +U is bit 0, spin −U is bit 1
pub const UNIT: i32 = 4096;

// 2U, which a parity inequality asks of its left side
pub const RIGHT_SIDE: u32 = 2 * UNIT as u32;

// "n and m are 1 to 2,048", a count (degree) at most 32, "E at most 8,192, and each bit stands in 1 to
// 32 checks"
pub const MAX_BITS: usize = 2048;

pub const MAX_CHECKS: usize = 2048;

pub const MAX_DEGREE: usize = 32;

pub const MAX_EDGES: usize = 8192;

pub const MAX_BIT_DEGREE: usize = 32;

// "from −8,191 to 8,191"
pub const FRAME_LIMIT: i16 = 8191;

// "A run has at most 1,024 rounds"
pub const ROUND_LIMIT: u32 = 1024;

// "8,192 × rounds done"
pub const OFFSET_PER_ROUND: u32 = 8192;

// "q 0 to 4,096; S 1 to 1,023; multiplier 1 to 16,777,215"
pub const MAX_ENTRIES: usize = 4096;

pub const MAX_SCALE: usize = 1023;

pub const MAX_MULTIPLIER: usize = 16777215;
