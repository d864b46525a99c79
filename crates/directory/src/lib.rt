// The MIFARE Application Directory of AN10787: how an image announces it, what it holds, and which sector is an application's.
// It is read as the bytes stand there: keys, rights and blocked sectors play no part.
#![tactic(auto)]

ghost use Rattle.std.specs.Prelude.{◌≡◌};
ghost use Rattle.directory.specs.Directory.{announced_of, version_of, info_of};
ghost use Rattle.directory.specs.Lookup.{refusal_number};

use layout::{Block, Sector};

mod entries;
mod parts;
mod search;
mod words;

pub use entries::entry_at;
pub use parts::{checksum, is_intact};
pub use search::{entry_count, intact_version, lookup, refusal_of, sector_of_place};

// The version of a directory, by its number.
#[derive(Clone, Copy)]
pub enum Version {
    One = 1,
    Two = 2,
}

// A part of a directory: that of sector 0, and that of sector 16.
#[derive(Clone, Copy)]
pub enum Part {
    First,
    Second,
}

// Why a directory is not read, by the number of the refusal: no card has this size, no directory is announced, or a checksum is wrong.
#[derive(Clone, Copy)]
pub enum Refusal {
    NoCard = 11,
    NoDirectory = 15,
    WrongChecksum = 16,
}

impl Refusal {
    pub fn number(self) -> u8
        ensures { result ≡ refusal_number self }
    {
        self as u8
    }
}

// What a lookup finds: the sector, where there is one, and how many entries it looked at.
#[derive(Clone, Copy)]
pub struct Looked {
    pub found: Option<Sector>,
    pub count: u8,
}

// What an announcing byte says of a card with so many sectors.
#[tactic(auto, unfolding(crate::specs::Directory::announced_of))]
fn announced(byte: u8, sectors: usize) -> Option<Version>
    ensures { result ≡ announced_of byte sectors }
{
    if byte < 128 {
        return None;
    }
    let number = byte % 4;
    if (number == 1) & (16 <= sectors) {
        return Some(Version::One);
    }
    if (number == 2) & (40 <= sectors) {
        return Some(Version::Two);
    }
    None
}

// The version that an image announces and has the sectors for.
pub fn version_of(image: &[u8]) -> Option<Version>
    ensures { result ≡ version_of image.now }
{
    announced(
        memory::byte(image, Block(3), 9),
        layout::sectors_of(image.len()),
    )
}

// The info byte of a part.
pub fn info_byte(image: &[u8], part: Part) -> u8
    ensures { result ≡ info_of image.now part }
{
    match part {
        Part::First => memory::byte(image, Block(1), 1),
        Part::Second => memory::byte(image, Block(64), 1),
    }
}
