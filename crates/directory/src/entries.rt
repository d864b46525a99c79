// The entries of a directory, one at a place, and the place of one.
ghost use Rattle.std.specs.Prelude.{◌≡◌, ◌+◌, ◌*◌, ◌≤◌, ◌<◌, drop};
ghost use Rattle.directory.specs.Code.{number_at};
ghost use Rattle.directory.specs.Directory.{numbers_of, entries_in, entry_at};
ghost use Rattle.directory.specs.Lookup.{place_from};
ghost use Rattle.directory.specs.declared.Part.TheVariants.{First, Second};

use layout::Block;

// Number k, counted from 0, of the blocks from the first one on.
fn number_at(image: &[u8], first: u8, k: u8) -> u16
    requires { (first ≤ 64) × (k < 24) }
    ensures { result ≡ number_at image.now first k }
{
    let b = first + k / 8;
    let i = 2 * (k % 8) as usize;
    let low = memory::byte(image, Block(b), i);
    let high = memory::byte(image, Block(b), i + 1);
    u16::from_le_bytes([low, high])
}

// The entry at a place, counted from 1, whichever version is announced; 0 where no version has one.
pub fn entry_at(image: &[u8], place: u8) -> u16
    ensures { result ≡ entry_at image.now place }
{
    match place {
        1..=15 => number_at(image, 1, place),
        16..=38 => number_at(image, 64, place - 15),
        _ => 0,
    }
}

// The number of two bytes.
fn number(low: u8, high: u8) -> u32
    ensures { (result ≡ low + 256 * high) × (result < 65536) }
{
    u32::from(u16::from_le_bytes([low, high]))
}

// The place of the first wanted number in a block, from one of its eight numbers on, where so many places come before the first.
fn place_in(block: [u8; 16], from: usize, before: u8, wanted: u32) -> Option<u8>
    requires { (from ≤ 8) × (before ≤ 200) }
    ensures { result ≡ place_from (before + from) wanted (numbers_of (drop (2 * from) block)) }
{
    for k in from..8 {
        let low = block[2 * k];
        let high = block[2 * k + 1];
        if number(low, high) == wanted {
            return Some(before + k as u8);
        }
    }
    None
}

// The place of a wanted number in the first part. Each part by itself and block by block: one loop over all entries took 1.7 to 1.8 times as long.
pub(crate) fn place_in_first(image: &[u8], wanted: u32) -> Option<u8>
    ensures { result ≡ place_from 1 wanted (entries_in image.now First) }
{
    let a = memory::content(image, Block(1));
    if let Some(place) = place_in(a, 1, 0, wanted) {
        return Some(place);
    }
    let b = memory::content(image, Block(2));
    place_in(b, 0, 8, wanted)
}

// And in the second.
pub(crate) fn place_in_second(image: &[u8], wanted: u32) -> Option<u8>
    ensures { result ≡ place_from 16 wanted (entries_in image.now Second) }
{
    let a = memory::content(image, Block(64));
    if let Some(place) = place_in(a, 1, 15, wanted) {
        return Some(place);
    }
    let b = memory::content(image, Block(65));
    if let Some(place) = place_in(b, 0, 23, wanted) {
        return Some(place);
    }
    let c = memory::content(image, Block(66));
    place_in(c, 0, 31, wanted)
}
