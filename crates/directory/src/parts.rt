// A part's checksum, over the blocks that it is made of.
ghost use Rattle.std.specs.Prelude.{◌≡◌};
ghost use Rattle.directory.specs.Checksum.{bytes_on, checksum_of};
ghost use Rattle.directory.specs.Code.{first_of, end_of};
ghost use Rattle.directory.specs.Directory.{is_intact};

use crate::{Part, words};
use layout::Block;

// The register after some bytes, one at a time.
fn bytewise(register: u8, bytes: &[u8]) -> u8
    ensures { result ≡ bytes_on register bytes.now }
{
    let mut c = register;
    for b in bytes {
        c = words::step(c ^ *b);
    }
    c
}

// The checksum of some bytes: whole words first, then what is left.
pub fn checksum(bytes: &[u8]) -> u8
    ensures { result ≡ checksum_of bytes.now }
{
    // This word stands for C7h.
    let mut s: u64 = 0x67;
    let mut left = bytes;
    while let Some((eight, rest)) = left.split_first_chunk::<8>() {
        s = words::eight_more(s, *eight);
        left = rest;
    }
    bytewise(words::register(s), left)
}

// The first block of a part, and the one after its last.
fn blocks_of(part: Part) -> (u8, u8)
    ensures { result ≡ (first_of part, end_of part) }
{
    match part {
        Part::First => (1, 3),
        Part::Second => (64, 67),
    }
}

// Is the checksum of a part right? It is the first byte, and over all the others.
pub fn is_intact(image: &[u8], part: Part) -> bool
    ensures { result ≡ is_intact image.now part }
{
    let (first, end) = blocks_of(part);
    let head = memory::content(image, Block(first));
    let mut s = words::open(head);
    for b in first + 1..end {
        s = words::more(s, memory::content(image, Block(b)));
    }
    words::register(s) == head[0]
}
