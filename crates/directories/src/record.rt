// What a record holds: bytes, numbers of two bytes, high byte first, and blocks.
ghost use Rattle.std.specs.Prelude.{◌<◌};

// Byte j; 0 past the end.
pub(crate) fn byte(record: &[u8], j: usize) -> u8 {
    record.get(j).copied().unwrap_or(0)
}

pub(crate) fn number(record: &[u8], j: usize) -> u32
    requires { j < 1000 }
{
    u32::from(u16::from_be_bytes([byte(record, j), byte(record, j + 1)]))
}

// The bytes from a place on; none past the end.
pub(crate) fn from(bytes: &[u8], at: usize) -> &[u8] {
    bytes.get(at..).unwrap_or(&[])
}

// The sixteen bytes from a place on; zeros where there are fewer.
pub(crate) fn block(record: &[u8], j: usize) -> [u8; 16] {
    memory::sixteen(from(record, j))
}
