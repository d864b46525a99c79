// Figures of checksums. A line: how many bytes count, sixteen bytes, and the checksum of those that count, low byte first.
use crate::line;

pub(crate) fn agrees(f: [u8; 22]) -> bool {
    let n = usize::from(f[0]);
    let bytes = line::block(f, 1);
    match bytes.get(..n) {
        Some(counted) => checksum::two(checksum::crc_a(counted)) == [f[17], f[18]],
        None => false,
    }
}
