// The images that the runs start from: 1K, with keys of FF in every trailer.
use layout::{Block, Sector};

// As cards are delivered: bits 001 for the trailer, 000 for the data blocks.
fn transport() -> [u8; 16] {
    memory::sixteen(b"\xFF\xFF\xFF\xFF\xFF\xFF\xFF\x07\x80\x69\xFF\xFF\xFF\xFF\xFF\xFF")
}

// Bits 000 for the trailer and for the data blocks.
fn all_zero() -> [u8; 16] {
    memory::sixteen(b"\xFF\xFF\xFF\xFF\xFF\xFF\xFF\x0F\x00\x69\xFF\xFF\xFF\xFF\xFF\xFF")
}

fn store_trailers(image: &mut [u8]) {
    for n in 0..16 {
        memory::store(image, layout::trailer_of(Sector(n)), transport());
    }
}

// Every trailer as delivered; block 4 holds the value 100 with the address byte 4.
pub(crate) fn delivered() -> [u8; 1024] {
    let mut image = [0u8; 1024];
    store_trailers(&mut image);
    memory::store(&mut image, Block(4), value::encode(100, 4));
    image
}

// The same with the bits 000 in the trailer of sector 1.
pub(crate) fn zero_bits() -> [u8; 1024] {
    let mut image = delivered();
    memory::store(&mut image, layout::trailer_of(Sector(1)), all_zero());
    image
}
