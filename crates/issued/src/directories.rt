// Does the crate `issue` write the directory of a record, and read it back?
ghost use Rattle.std.specs.Prelude.{◌≤◌};

use crate::record;
use issue::Listing;
use layout::Block;

// The numbers of a record, the low byte first.
fn numbers_of(directory: &[u8]) -> [u8; 76] {
    let mut numbers = [0u8; 76];
    for i in 0..38 {
        numbers[2 * i] = record::byte(directory, 2 * i + 3);
        numbers[2 * i + 1] = record::byte(directory, 2 * i + 2);
    }
    numbers
}

// The bytes of the card for a version: 1K for the first, 4K for the second.
fn size_of(version: u8) -> usize
    ensures { result ≤ 4096 }
{
    if version == 1 { 1024 } else { 4096 }
}

// How many bytes of numbers a version has.
fn length_of(version: u8) -> usize
    ensures { result ≤ 76 }
{
    if version == 1 { 30 } else { 76 }
}

// The image that a record describes: its blocks 1, 2, 64, 65 and 66, an announcing byte, and zeros.
fn image_of(directory: &[u8], announcing: u8) -> [u8; 4096] {
    let mut image = [0u8; 4096];
    let mut trailer = [0u8; 16];
    trailer[9] = announcing;
    memory::store(&mut image, Block(1), record::block(directory, 78));
    memory::store(&mut image, Block(2), record::block(directory, 94));
    memory::store(&mut image, Block(3), trailer);
    memory::store(&mut image, Block(64), record::block(directory, 110));
    memory::store(&mut image, Block(65), record::block(directory, 126));
    memory::store(&mut image, Block(66), record::block(directory, 142));
    image
}

// Is the card what a record says? Nothing else stands on it, and the record's announcing byte has bit 6 besides.
fn is_written(card: &[u8], directory: &[u8]) -> bool {
    let announcing = memory::byte(card, Block(3), 9);
    let expected = image_of(directory, announcing);
    let besides = (announcing / 64 == 2) & (announcing ^ 64 == record::byte(directory, 158));
    besides & expected.starts_with(card)
}

// The list of a record has zeros past the version's numbers, as the one that is read.
fn is_read(told: Listing, list: [u8; 76], directory: &[u8]) -> bool {
    let right = told.infos == [record::byte(directory, 1), 0];
    let same = told.version as u8 == record::byte(directory, 0);
    right & same & (list == numbers_of(directory))
}

// Writes a record's directory on a card, and reads it.
fn comes_back(card: &mut [u8], directory: &[u8], numbers: &[u8]) -> bool {
    let infos = [record::byte(directory, 1), 0];
    let written = issue::write_directory(card, infos, numbers).is_ok();
    let mut list = [0u8; 76];
    let Ok(told) = issue::read_directory(card, &mut list) else {
        return false;
    };
    written & is_written(card, directory) & is_read(told, list, directory)
}

// A record: version, info byte, 38 numbers (zeros past the version's), the five blocks, the announcing byte. It is played on a card of zeros.
pub(crate) fn agree(directory: &[u8]) -> bool {
    let version = record::byte(directory, 0);
    let size = size_of(version);
    let length = length_of(version);
    let numbers = numbers_of(directory);
    let mut image = [0u8; 4096];
    comes_back(&mut image[..size], directory, &numbers[..length])
}
