// Figures of value blocks. In a line a value is its 32 bits, high byte first.
use crate::line;
use crate::line::word;

fn holds(block: [u8; 16], bits: u32, address: u8) -> bool {
    value::decode(block) == Some((bits, address))
}

// A line: a value, an address byte, and their value block.
pub(crate) fn agrees(f: [u8; 22]) -> bool {
    let bits = word(f, 0);
    let address = f[4];
    let made = value::encode(bits, address);
    line::is_block(f, 5, made) & holds(line::block(f, 5), bits, address)
}

// A line: sixteen bytes, 1 where they are a value block and 0 where not, the value and the address byte, or zeros.
pub(crate) fn agrees_in_form(f: [u8; 22]) -> bool {
    let flag = f[16];
    let bits = word(f, 17);
    let address = f[21];
    match value::decode(line::block(f, 0)) {
        Some((v, a)) => {
            let same = (flag == 1) & (v == bits) & (a == address);
            same & line::is_block(f, 0, value::encode(v, a))
        }
        None => (flag == 0) & (bits == 0) & (address == 0),
    }
}
