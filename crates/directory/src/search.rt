// Which sector is an application's.
ghost use Rattle.std.specs.Prelude.{◌≡◌};
ghost use Rattle.directory.specs.Directory.{entries_of};
ghost use Rattle.directory.specs.Lookup.{entry_count, sector_of_place, is_right, intact_version, refusal_of, place_from, lookup_of};

use crate::{Looked, Part, Refusal, Version, entries, parts};
use layout::Sector;

// The sector of a place, counted from 1; sector 0 for a place that no directory has.
#[tactic(auto, unfolding(crate::specs::Lookup::sector_of_place))]
pub fn sector_of_place(place: u8) -> Sector
    ensures { result ≡ sector_of_place place }
{
    if place <= 15 {
        return Sector(place);
    }
    if place <= 38 {
        return Sector(place + 1);
    }
    Sector(0)
}

// How many entries a version has.
pub fn entry_count(version: Version) -> u8
    ensures { result ≡ entry_count version }
{
    match version {
        Version::One => 15,
        Version::Two => 38,
    }
}

// Are the checksums of a version right?
#[tactic(auto, unfolding(crate::specs::Lookup::is_right))]
fn is_right(image: &[u8], version: Version) -> bool
    ensures { result ≡ is_right image.now version }
{
    match version {
        Version::One => parts::is_intact(image, Part::First),
        Version::Two => {
            let first = parts::is_intact(image, Part::First);
            let second = parts::is_intact(image, Part::Second);
            first & second
        }
    }
}

// The version of an image's directory, where its checksums are right.
#[tactic(auto, unfolding(crate::specs::Lookup::intact_version, crate::specs::Lookup::judged))]
pub fn intact_version(image: &[u8]) -> Result<Version, Refusal>
    ensures { result ≡ intact_version image.now }
{
    if layout::sectors_of(image.len()) == 0 {
        return Err(Refusal::NoCard);
    }
    let Some(version) = crate::version_of(image) else {
        return Err(Refusal::NoDirectory);
    };
    if is_right(image, version) {
        return Ok(version);
    }
    Err(Refusal::WrongChecksum)
}

// Why an image's directory is not read: 11, then 15, then 16.
#[tactic(auto, unfolding(crate::specs::Lookup::refusal_of))]
pub fn refusal_of(image: &[u8]) -> Result<(), Refusal>
    ensures { result ≡ refusal_of image.now }
{
    intact_version(image).and(Ok(()))
}

// The place of the first entry that is the wanted number.
fn place_of(image: &[u8], version: Version, wanted: u32) -> Option<u8>
    ensures { result ≡ place_from 1 wanted (entries_of image.now version) }
{
    if let Some(place) = entries::place_in_first(image, wanted) {
        return Some(place);
    }
    match version {
        Version::One => None,
        Version::Two => entries::place_in_second(image, wanted),
    }
}

// The lowest sector that holds a wanted number, and how many entries were looked at for it.
#[tactic(auto, using(crate::proofs::Every::counted), unfolding(crate::specs::Lookup::lookup_of, crate::specs::Lookup::looked_up, crate::specs::Lookup::searched, crate::specs::Lookup::looked_of))]
pub fn lookup(image: &[u8], wanted: u32) -> Result<Looked, Refusal>
    ensures { result ≡ lookup_of image.now wanted }
{
    let version = intact_version(image)?;
    let Some(place) = place_of(image, version, wanted) else {
        return Ok(Looked {
            found: None,
            count: entry_count(version),
        });
    };
    Ok(Looked {
        found: Some(sector_of_place(place)),
        count: place,
    })
}
