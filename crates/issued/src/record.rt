// What a record holds: bytes, and blocks.

// Byte j; 0 past the end.
pub(crate) fn byte(record: &[u8], j: usize) -> u8 {
    record.get(j).copied().unwrap_or(0)
}

// The bytes from a place on; none past the end.
fn from(bytes: &[u8], at: usize) -> &[u8] {
    bytes.get(at..).unwrap_or(&[])
}

// The sixteen bytes from a place on; zeros where there are fewer.
pub(crate) fn block(record: &[u8], j: usize) -> [u8; 16] {
    memory::sixteen(from(record, j))
}
