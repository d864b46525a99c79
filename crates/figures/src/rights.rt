// Figures of the rights. In a line a key is the byte 0A or 0B, and each right is 1 or 0.
ghost use Rattle.std.specs.Prelude.{◌≤◌};

use access::{AccessBytes, Letter, Operation};
use layout::{Block, Group};

// In the order of a line's rights.
const OPERATIONS: [Operation; 4] = [
    Operation::Read,
    Operation::Write,
    Operation::Increment,
    Operation::Decrement,
];

fn letter_of(key: u8) -> Letter {
    if key == 0x0A {
        return Letter::KeyA;
    }
    Letter::KeyB
}

// What a group's bit counts in a nibble of the access bytes.
fn place_of(g: Group) -> u8
    ensures { result ≤ 8 }
{
    match g {
        Group::First => 1,
        Group::Second => 2,
        Group::Third => 4,
        Group::Trailer => 8,
    }
}

// A nibble with a number's last bit at a place, and zeros at the others.
fn nibble(n: u8, place: u8) -> u8
    requires { place ≤ 8 }
    ensures { result ≤ 8 }
{
    if n % 2 == 0 {
        return 0;
    }
    place
}

// Access bytes that give a group these bits, and the other groups 000.
fn access_bytes_for(g: Group, bits: u8) -> AccessBytes {
    let place = place_of(g);
    let c1 = nibble(bits / 4, place);
    let c2 = nibble(bits / 2, place);
    let c3 = nibble(bits, place);
    AccessBytes(
        16 * (15 - c2) + (15 - c1),
        16 * c1 + (15 - c3),
        16 * c3 + c2,
    )
}

// A line: bits, a data block whose group has them, a key, and whether the key may read, write, increment, decrement.
pub(crate) fn agrees_for_data(f: [u8; 22]) -> bool {
    let g = layout::group_of(Block(f[1]));
    let letter = letter_of(f[2]);
    let wanted = f[0];
    let Some(bits) = access::bits_of(access_bytes_for(g, wanted), g) else {
        return false;
    };
    let rights = OPERATIONS
        .iter()
        .zip(&f[3..])
        .all(|(o, right)| access::may(letter, *o, bits) as u8 == *right);
    (bits == wanted) & rights
}

// A line: a trailer's bits, a key, and whether the key may read and write key A, then the access bits, then key B.
// No key reads key A. Key B reads nothing where it counts for nothing; else either key reads the bits, and only key A reads key B.
pub(crate) fn agrees_for_trailer(f: [u8; 22]) -> bool {
    let bits = f[0];
    let letter = letter_of(f[1]);
    let parts = access::writable(letter, bits);
    let counts = !access::is_mute(letter, bits);
    let key_a = (f[2] == 0) & (f[3] == parts.a as u8);
    let access_bits = (f[4] == counts as u8) & (f[5] == parts.bits as u8);
    let reads_b = access::is_readable(bits) & counts;
    let key_b = (f[6] == reads_b as u8) & (f[7] == parts.b as u8);
    key_a & access_bits & key_b
}
