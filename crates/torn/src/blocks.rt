// Value blocks, torn and mended.
ghost use Rattle.std.specs.Prelude.{◌<◌};

use crate::record;
use layout::Block;

// A block with some bits of a byte turned over.
fn turned(block: [u8; 16], i: usize, bits: u8) -> [u8; 16]
    requires { i < 16 }
{
    let mut torn = block;
    torn[i] = block[i] ^ bits;
    torn
}

fn is_mended(block: [u8; 16], bits: u32, address: u8) -> bool {
    mend::majority_of(block) == Some((bits, address))
}

// Each bit of a byte.
fn comes_back(block: [u8; 16], i: usize, bits: u32, address: u8) -> bool
    requires { i < 16 }
{
    for one in [1, 2, 4, 8, 16, 32, 64, 128] {
        if !is_mended(turned(block, i, one), bits, address) {
            return false;
        }
    }
    true
}

// A record: a value, an address byte, and their value block. It is torn in each of its 128 bits, and has to come back each time.
pub(crate) fn come_back(record: &[u8]) -> bool {
    let bits = record::bits(record, 0);
    let address = record::byte(record, 4);
    let block = record::block(record, 5);
    for i in 0..16 {
        if !comes_back(block, i, bits, address) {
            return false;
        }
    }
    true
}

// A record: sixteen bytes, and 1 where they are a value block. Mended in an image, such a block is accepted with no byte changed, and no other is.
pub(crate) fn agrees_in_form(record: &[u8]) -> bool {
    let mut image = [0u8; 1024];
    memory::store(&mut image, Block(4), record::block(record, 0));
    let sound = matches!(mend::mend_block(&mut image, Block(4)), Ok(0));
    sound == (record::byte(record, 16) == 1)
}
