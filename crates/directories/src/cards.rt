// Does the crate's answer agree with a record?
ghost use Rattle.std.specs.Prelude.{◌≤◌};

use crate::record;
use directory::{Part, Version};
use layout::Block;

// A record: how many bytes count, forty-seven bytes, and the checksum of those that count.
pub(crate) fn agrees_in_checksum(record: &[u8]) -> bool {
    let end = 1 + record::byte(record, 0) as usize;
    if end <= record.len() {
        return directory::checksum(&record[1..end]) == record::byte(record, 48);
    }
    false
}

// The trailer of sector 0, with an announcing byte.
fn trailer_with(announcing: u8) -> [u8; 16] {
    let mut trailer = [0u8; 16];
    trailer[9] = announcing;
    trailer
}

// The bytes of a 1K card for 1, of a 4K card for any other number. A directory's version 1 is played on a 1K card, its version 2 on a 4K card.
fn size_of(card: u8) -> usize
    ensures { result ≤ 4096 }
{
    if card == 1 { 1024 } else { 4096 }
}

// The image of a directory's record, its blocks 1, 2, 64, 65 and 66, with an announcing byte.
fn image_of(directory: &[u8], announcing: u8) -> [u8; 4096] {
    let mut image = [0u8; 4096];
    memory::store(&mut image, Block(1), record::block(directory, 78));
    memory::store(&mut image, Block(2), record::block(directory, 94));
    memory::store(&mut image, Block(64), record::block(directory, 110));
    memory::store(&mut image, Block(65), record::block(directory, 126));
    memory::store(&mut image, Block(66), record::block(directory, 142));
    memory::store(&mut image, Block(3), trailer_with(announcing));
    image
}

// A version's number; 0 for none, which is refused with 15.
fn is_version(card: &[u8], version: u8) -> bool {
    let announced = directory::version_of(card).map_or(0, |v| v as u8);
    let read = directory::intact_version(card).map_or_else(|r| r.number(), |_| 0);
    (announced == version) & (read == if version == 0 { 15 } else { 0 })
}

fn holds(card: &[u8], place: u8, number: u32) -> bool {
    directory::entry_at(card, place) as u32 == number
}

// Are the entries of a card the numbers of its record?
fn has_entries(card: &[u8], directory: &[u8]) -> bool {
    for place in 1..39 {
        if !holds(card, place, record::number(directory, 2 * place as usize)) {
            return false;
        }
    }
    true
}

fn is_directory(card: &[u8], directory: &[u8]) -> bool {
    let info = directory::info_byte(card, Part::First) == record::byte(directory, 1);
    is_version(card, record::byte(directory, 0)) & info & has_entries(card, directory)
}

fn is_marked(lookup: &[u8], place: u8) -> bool {
    let sector = directory::sector_of_place(place);
    record::byte(lookup, 6 + sector.0 as usize) == 1
}

// Are the sectors that hold the number those that a lookup's record marks? Sector 16 has no entry, so its mark counts for nothing.
fn has_marked(card: &[u8], lookup: &[u8], entries: u8) -> bool {
    let wanted = record::number(lookup, 1);
    for place in 1..39 {
        let held = holds(card, place, wanted) & (place <= entries);
        if held != is_marked(lookup, place) {
            return false;
        }
    }
    true
}

// The entries of the version that is played on a card of so many bytes.
fn entries_of(bytes: usize) -> u8 {
    if bytes == 1024 { 15 } else { 38 }
}

// The record's flag, sector and count.
fn is_lookup(card: &[u8], lookup: &[u8]) -> bool {
    let Ok(answer) = directory::lookup(card, record::number(lookup, 1)) else {
        return false;
    };
    let sector = answer.found.map_or(0, |s| s.0);
    let same = (answer.found.is_some() as u8 == record::byte(lookup, 3))
        & (sector == record::byte(lookup, 4));
    same & (answer.count == record::byte(lookup, 5))
        & has_marked(card, lookup, entries_of(card.len()))
}

// Asks the card that a directory's record describes, with an announcing byte.
fn agrees<F: Fn(&[u8]) -> bool>(directory: &[u8], announcing: u8, card: u8, asks: F) -> bool
    requires { F.IsAlwaysCallable asks }
{
    let image = image_of(directory, announcing);
    let size = size_of(card);
    asks(&image[..size])
}

// A record: 1 for a 1K card or 4 for a 4K card, its announcing byte, and the version, or 0 for a refusal. Both parts are empty, as those of the second directory.
pub(crate) fn agrees_in_version(record: &[u8], directories: &[u8]) -> bool {
    let empty = record::from(directories, 159);
    let announcing = record::byte(record, 1);
    let card = record::byte(record, 0);
    agrees(empty, announcing, card, |card| {
        is_version(card, record::byte(record, 2))
    })
}

// A record: version, info byte, 38 numbers (zeros past the version's), the five blocks, the announcing byte.
pub(crate) fn agrees_in_directory(record: &[u8]) -> bool {
    let announcing = record::byte(record, 158);
    let card = record::byte(record, 0);
    agrees(record, announcing, card, |card| is_directory(card, record))
}

// A record: which directory, counted from 0, a number, whether it is found, its sector, the count, and for each sector whether it holds the number.
pub(crate) fn agrees_in_lookup(record: &[u8], directories: &[u8]) -> bool {
    let at = 159 * record::byte(record, 0) as usize;
    let directory = record::from(directories, at);
    let announcing = record::byte(directory, 158);
    let card = record::byte(directory, 0);
    agrees(directory, announcing, card, |card| is_lookup(card, record))
}
