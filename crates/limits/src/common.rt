// Degrees compiled by themselves: of the checks and bits of (3,6)- and (4,8)-regular codes, and the 2 of a
// double diagonal, which standards' codes end in. A loop of known length needs no counting, and products do
// for a division by a known number. No answer depends on these numbers.
pub const DEGREE_2: u16 = 2;

pub const DEGREE_3: u16 = 3;

pub const DEGREE_4: u16 = 4;

pub const DEGREE_6: usize = 6;

pub const DEGREE_8: usize = 8;
