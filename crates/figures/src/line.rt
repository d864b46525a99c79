// The fields of a line: each is one byte as two hexadecimal digits, and takes three places of the text.
ghost use Rattle.std.specs.Prelude.{◌≤◌, ◌<◌};

use std::array;

// The byte at a place; 0 past the end.
fn byte_at(text: &[u8], at: usize) -> u8 {
    text.get(at).copied().unwrap_or(0)
}

// The number of a hexadecimal digit; 0 for any other character.
fn digit(c: u8) -> u8
    ensures { result < 16 }
{
    match c {
        b'0'..=b'9' => c - b'0',
        b'A'..=b'F' => c - b'A' + 10,
        _ => 0,
    }
}

// Has a line all its places, and a line's end in the last?
pub(crate) fn is_whole(line: &[u8], width: usize) -> bool {
    line.len() == width && line.ends_with(b"\n")
}

// Field j of the line that a text starts with.
fn field(text: &[u8], j: usize) -> u8
    requires { j < 32 }
{
    let high = digit(byte_at(text, 3 * j));
    let low = digit(byte_at(text, 3 * j + 1));
    16 * high + low
}

// The first n fields of the line that a text starts with, and zeros.
pub(crate) fn fields(text: &[u8], n: usize) -> [u8; 22] {
    array::from_fn(|j| if j < n { field(text, j) } else { 0 })
}

// Four fields as one number, high byte first.
pub(crate) fn word(f: [u8; 22], first: usize) -> u32
    requires { first ≤ 18 }
{
    u32::from_be_bytes([f[first], f[first + 1], f[first + 2], f[first + 3]])
}

// Sixteen fields as the bytes of a block.
pub(crate) fn block(f: [u8; 22], first: usize) -> [u8; 16]
    requires { first ≤ 6 }
{
    array::from_fn(|i| f[first + i])
}

// Are sixteen fields the bytes of a block?
pub(crate) fn is_block(f: [u8; 22], first: usize, bytes: [u8; 16]) -> bool
    requires { first ≤ 6 }
{
    block(f, first) == bytes
}
