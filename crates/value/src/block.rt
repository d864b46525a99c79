// A value and an address byte as sixteen bytes, there and back.
ghost use Rattle.std.specs.Prelude.{◌≡◌, ◌&&◌, ◌-◌, eqb};
ghost use Rattle.value.specs.Whole.{signed};
ghost use Rattle.value.specs.Block.{encode_of, decode_of, agreeing};

use crate::bytes;

// The value block of a value, given as its bits, and an address byte.
pub fn encode(value: u32, address: u8) -> [u8; 16]
    ensures { result ≡ encode_of (signed value) address }
{
    let plain = bytes::four(value);
    let inverted = bytes::four(4294967295 - value);
    [
        plain[0],
        plain[1],
        plain[2],
        plain[3],
        inverted[0],
        inverted[1],
        inverted[2],
        inverted[3],
        plain[0],
        plain[1],
        plain[2],
        plain[3],
        address,
        255 - address,
        address,
        255 - address,
    ]
}

// An address byte, then inverted, again, and inverted again?
fn is_address(a: u8, b: u8, c: u8, d: u8) -> bool
    ensures { result ≡ (eqb b (255 - a) && eqb c a && eqb d (255 - a)) }
{
    (b == 255 - a) & (c == a) & (d == 255 - a)
}

// All sixteen bytes agree: the value's compared as three words, the address byte's one by one.
fn agrees(block: [u8; 16]) -> bool
    ensures { result ≡ agreeing block }
{
    let plain = bytes::word(block[0], block[1], block[2], block[3]);
    let inverted = bytes::word(block[4], block[5], block[6], block[7]);
    let again = bytes::word(block[8], block[9], block[10], block[11]);
    let address = is_address(block[12], block[13], block[14], block[15]);
    (inverted == 4294967295 - plain) & (again == plain) & address
}

// The value, as its bits, and the address byte of sixteen bytes; none where they are no value block.
pub fn decode(block: [u8; 16]) -> Option<(u32, u8)>
    ensures { result ≡ decode_of block }
{
    if agrees(block) {
        let value = bytes::word(block[0], block[1], block[2], block[3]);
        return Some((value, block[12]));
    }
    None
}
