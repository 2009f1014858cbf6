// The numbers of files and their bytes: "file numbers are little-endian".
#![tactic(auto)]

ghost use Rattle.std.specs.Prelude.{◌≡◌, ◌<◌};
ghost use Rattle.std.proofs.lemmas.List.Edits.{sets};
ghost use Rattle.rules.specs.Bytes.{u16_of, u32_of, u16_limit, le16, le32};

// The number of two bytes.
pub fn u16_of(low: u8, high: u8) -> usize
    ensures { (result ≡ u16_of low high) × (result < u16_limit) }
{
    usize::from(u16::from_le_bytes([low, high]))
}

// The number of four bytes, the lowest first.
pub fn u32_of(b0: u8, b1: u8, b2: u8, b3: u8) -> u32
    ensures { result ≡ u32_of b0 b1 b2 b3 }
{
    u32::from_le_bytes([b0, b1, b2, b3])
}

// These bytes from byte `at` on; what falls past the end is left out.
fn put(bytes: &mut [u8], at: usize, values: &[u8])
    ensures { bytes.new ≡ sets bytes.old at values.now }
{
    for (i, value) in (at..bytes.len()).zip(values) {
        bytes[i] = *value;
    }
}

// The two bytes of a number, from byte `at` on; what falls past the end is left out.
pub fn put16(bytes: &mut [u8], at: usize, x: usize)
    ensures { bytes.new ≡ sets bytes.old at (le16 x) }
{
    let [low, high, ..] = x.to_le_bytes();
    put(bytes, at, &[low, high]);
}

// The four bytes of a number, likewise.
pub fn put32(bytes: &mut [u8], at: usize, x: u32)
    ensures { bytes.new ≡ sets bytes.old at (le32 x) }
{
    put(bytes, at, &x.to_le_bytes());
}
