// The blocks of a lent image: read one byte or all sixteen, store sixteen. Nothing above this crate computes an offset.
// A second Write frame brings its sixteen bytes as a block has them, so they are taken here too.
#![tactic(auto)]

ghost use Rattle.std.specs.Prelude.{◌≡◌, ◌*◌};
ghost use Rattle.memory.specs.Memory.{sixteen_of, content_of, byte_of, store_of};

use layout::Block;

// The place of a block's first byte.
fn start_of(b: Block) -> usize
    ensures { result ≡ 16 * b.0 }
{
    16 * usize::from(b.0)
}

// The first sixteen of some bytes; zeros where there are fewer.
#[tactic(auto, unfolding(crate::specs::Memory::sixteen_of))]
pub fn sixteen(bytes: &[u8]) -> [u8; 16]
    ensures { result ≡ sixteen_of bytes.now }
{
    match bytes.first_chunk::<16>() {
        Some(first) => *first,
        None => [0u8; 16],
    }
}

// Byte i of a block; 0 past the block's end, and where the image has no such block.
#[tactic(auto, using(layout::proofs::Laws::room, crate::proofs::Ways::byte_read), unfolding(crate::specs::Memory::content_of, crate::specs::Memory::byte_of))]
pub fn byte(image: &[u8], b: Block, i: usize) -> u8
    ensures { result ≡ byte_of image.now b i }
{
    if layout::has_block(image.len(), b) {
        if i < 16 {
            let at = start_of(b) + i;
            return image[at];
        }
        return 0;
    }
    0
}

// A block's sixteen bytes; zeros where the image has no such block.
#[tactic(auto, using(layout::proofs::Laws::room), unfolding(crate::specs::Memory::sixteen_of, crate::specs::Memory::content_of))]
pub fn content(image: &[u8], b: Block) -> [u8; 16]
    ensures { result ≡ content_of image.now b }
{
    if layout::has_block(image.len(), b) {
        let at = start_of(b);
        return sixteen(&image[at..at + 16]);
    }
    [0u8; 16]
}

// Sixteen bytes in the place of a block's; nothing where the image has no such block.
#[tactic(auto, using(layout::proofs::Laws::room), unfolding(crate::specs::Memory::store_of))]
pub fn store(image: &mut [u8], b: Block, bytes: [u8; 16])
    ensures { image.new ≡ store_of image.old b bytes }
{
    if layout::has_block(image.len(), b) {
        let at = start_of(b);
        image[at..at + 16].copy_from_slice(&bytes);
    }
}
