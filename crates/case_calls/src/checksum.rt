// The checksum of all buffers: h times 1,099,511,628,211 plus the element, modulo 2^64, over
// all elements as unsigned numbers.
pub(crate) const FIRST: u64 = 14695981039346656037;

const FACTOR: u64 = 1099511628211;

// An element of a buffer, as an unsigned number.
pub(crate) trait Element: Copy {
    fn unsigned(self) -> u64;
}

impl Element for i32 {
    fn unsigned(self) -> u64 {
        u64::from(self.cast_unsigned())
    }
}

impl Element for u32 {
    fn unsigned(self) -> u64 {
        u64::from(self)
    }
}

impl Element for u8 {
    fn unsigned(self) -> u64 {
        u64::from(self)
    }
}

// The checksum with one buffer more.
pub(crate) fn with<E: Element>(start: u64, buffer: &[E]) -> u64 {
    let mut h = start;
    for element in buffer {
        h = h.wrapping_mul(FACTOR).wrapping_add(element.unsigned());
    }
    h
}
