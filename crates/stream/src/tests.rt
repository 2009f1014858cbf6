// Runs of what the clauses say of known bytes, and what no clause says: how numbers and parts lie in them, and
// that an error of the input is handed on.
use super::*;

// These bytes, one at a time, and then an error, again and again.
#[derive(Drop)]
struct Failing<'a> {
    bytes: &'a [u8],
}

impl Read for Failing<'_> {
    fn read(&mut self, buf: &mut [u8]) -> io::Result<usize> {
        if self.bytes.len() == 0 || buf.len() == 0 {
            return Err(io::Error::from(io::ErrorKind::BrokenPipe));
        }
        buf[0] = self.bytes[0];
        self.bytes = &self.bytes[1..];
        Ok(1)
    }
}

#[test]
fn known_bytes_come_in_order(rt: HostRuntime) -> io::Result<()> {
    let all = [2u8, 0, 0, 0, 160, 15, 48, 248, 9];
    let mut input: &[u8] = &all;
    let mut numbers = [5i16; 3];
    let part = read_i16_part(&mut input, &mut numbers)?;
    assert!(rt; matches!(part, Part::Whole(2)));
    assert_eq!(rt; numbers, [4000, -2000, 5]);
    let mut rest = [0u8; 4];
    assert_eq!(rt; read_full(&mut input, &mut rest)?, 1);
    assert_eq!(rt; rest, [9, 0, 0, 0]);
    assert_eq!(rt; read_full(&mut input, &mut rest)?, 0);
    Ok(())
}

#[test]
fn an_error_is_handed_on(rt: HostRuntime) {
    let mut bytes = [5u8; 4];
    let mut numbers = [5i16; 2];
    let two = [7u8, 7];
    let part = [2u8, 0, 0, 0, 9];
    assert!(rt; read_full(&mut Failing { bytes: &two }, &mut bytes).is_err());
    assert_eq!(rt; bytes, [7, 7, 5, 5]);
    assert!(rt; read_i16(&mut Failing { bytes: &two }, &mut numbers).is_err());
    assert_eq!(rt; numbers, [5, 5]);
    assert!(rt; read_u32(&mut Failing { bytes: &two }).is_err());
    assert!(rt; read_part(&mut Failing { bytes: &part }, &mut bytes).is_err());
    assert!(rt; read_i16_part(&mut Failing { bytes: &part }, &mut numbers).is_err());
    assert!(rt; read_i32_part(&mut Failing { bytes: &part }, &mut [1i32, 1]).is_err());
}
