// The directory, written: its version, its parts, its blocks, and the byte that announces it.
ghost use Rattle.std.specs.Prelude.{◌≡◌, ◌+◌, ◌*◌, ◌/◌, ◌≤◌, length};
ghost use Rattle.directory.specs.Lookup.{entry_count};
ghost use Rattle.issue.specs.Write.{version_for, version_to_write, write_refusal, part_bytes, blocks_on, filled, directory_bytes, directory_blocks, digit_of, announcing, announced, written_image};

use crate::WriteRefusal;
use directory::Version;
use layout::Block;

// The version that so many bytes of numbers are for, on a card with so many sectors.
#[tactic(auto, unfolding(crate::specs::Write::version_for))]
fn version_for(sectors: usize, bytes: usize) -> Option<Version>
    ensures { result ≡ version_for sectors bytes }
{
    if (bytes == 30) & (16 <= sectors) {
        return Some(Version::One);
    }
    if (bytes == 76) & (40 <= sectors) {
        return Some(Version::Two);
    }
    None
}

// The version that is written to an image of so many bytes.
#[tactic(auto, unfolding(crate::specs::Write::version_to_write))]
fn version_to_write(bytes: usize, numbers: usize) -> Result<Version, WriteRefusal>
    ensures { result ≡ version_to_write bytes numbers }
{
    let sectors = layout::sectors_of(bytes);
    if sectors == 0 {
        return Err(WriteRefusal::NoCard);
    }
    if sectors < 16 {
        return Err(WriteRefusal::TooSmall);
    }
    version_for(sectors, numbers).ok_or(WriteRefusal::WrongCount)
}

// A part in full: its checksum, its info byte, its numbers.
fn fill_part(part: &mut [u8], info: u8, numbers: &[u8])
    requires { length part.old ≡ length numbers.now + 2 }
    ensures { part.new ≡ part_bytes info numbers.now }
{
    part[1] = info;
    // Byte by byte: a copy of a length that is known only here would be a call of `memmove`, and the desk's library asks for none.
    for i in 0..numbers.len() {
        part[i + 2] = numbers[i];
    }
    part[0] = directory::checksum(&part[1..]);
}

// Some bytes in the blocks from one on, sixteen to a block.
fn store_blocks(image: &mut [u8], first: u8, bytes: &[u8])
    requires { first + length bytes.now / 16 ≤ 256 }
    ensures { image.new ≡ filled image.old (blocks_on first (length bytes.now / 16)) bytes.now }
{
    for k in 0..bytes.len() / 16 {
        memory::store(
            image,
            Block(first + k as u8),
            memory::sixteen(&bytes[16 * k..]),
        );
    }
}

// A part of N bytes, in the blocks from one on.
fn write_part<const N: usize>(image: &mut [u8], first: u8, info: u8, numbers: &[u8])
    requires { (length numbers.now + 2 ≡ N) × (first + N / 16 ≤ 256) }
    ensures { image.new ≡ filled image.old (blocks_on first (N / 16)) (part_bytes info numbers.now) }
{
    let mut part = [0u8; N];
    fill_part(&mut part, info, numbers);
    store_blocks(image, first, &part);
}

// The announcing byte of a version.
#[tactic(auto, unfolding(crate::specs::Write::announcing))]
fn announcing_byte(byte: u8, version: Version) -> u8
    ensures { result ≡ announcing byte (digit_of version) }
{
    128 + byte % 128 / 4 * 4 + version as u8
}

// That byte in sector 0's trailer.
fn announce(image: &mut [u8], version: Version)
    ensures { image.new ≡ announced image.old (digit_of version) }
{
    let mut trailer = memory::content(image, Block(3));
    trailer[9] = announcing_byte(trailer[9], version);
    memory::store(image, Block(3), trailer);
}

// The parts of a version: fifteen numbers in sector 0, twenty-three in sector 16.
fn write_parts(image: &mut [u8], version: Version, infos: [u8; 2], numbers: &[u8])
    requires { length numbers.now ≡ 2 * entry_count version }
    ensures { image.new ≡ filled image.old (directory_blocks version) (directory_bytes infos numbers.now version) }
{
    match version {
        Version::One => write_part::<32>(image, 1, infos[0], numbers),
        Version::Two => {
            write_part::<32>(image, 1, infos[0], &numbers[..30]);
            write_part::<48>(image, 64, infos[1], &numbers[30..]);
        }
    }
}

// The directory from its info bytes and its numbers, two bytes each, the low one first.
#[tactic(auto, using(crate::proofs::Choice::amount_of), unfolding(crate::specs::Write::written_image, crate::specs::Write::written, crate::specs::Write::written_as))]
pub fn write_directory(image: &mut [u8], infos: [u8; 2], numbers: &[u8]) -> Result<(), WriteRefusal>
    ensures value { result ≡ write_refusal (length image.old) (length numbers.now) }
    ensures image_after { image.new ≡ written_image image.old infos numbers.now }
{
    let version = version_to_write(image.len(), numbers.len())?;
    write_parts(image, version, infos, numbers);
    announce(image, version);
    Ok(())
}
