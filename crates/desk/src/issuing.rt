// The boundary of the issuing desk: a directory and a sector's access bytes, written and read back.
ghost use Rattle.std.specs.Prelude.{◌≡◌, length};
ghost use Rattle.issue.specs.Write.{write_number, write_refusal, written_image};
ghost use Rattle.issue.specs.Read.{read_of, read_list};
ghost use Rattle.issue.specs.Groups.{access_number, access_refusal, access_image, read_access};
ghost use Rattle.desk.specs.Desk.{number_of, packed_listing, infos_in, bits_in, sector_named};

use layout::Sector;

// The sector that a number names: one that no card has, where it is more than a byte holds.
#[tactic(auto, unfolding(crate::specs::Desk::sector_named))]
fn sector_named(number: u32) -> Sector
    ensures { result ≡ sector_named number }
{
    Sector(u8::try_from(number).unwrap_or(255))
}

// The directory of an image, from its info bytes and its numbers.
pub fn tirlwheel_write_directory(image: &mut [u8], infos: &[u8; 2], numbers: &[u8]) -> u32
    ensures value { result ≡ number_of write_number (write_refusal (length image.old) (length numbers.now)) }
    ensures image_after { image.new ≡ written_image image.old infos.now numbers.now }
{
    match issue::write_directory(image, *infos, numbers) {
        Ok(()) => 0,
        Err(refusal) => u32::from(refusal.number()),
    }
}

// The directory of an image, read in full.
pub fn tirlwheel_read_directory(image: &[u8], infos: &mut [u8; 2], numbers: &mut [u8; 76]) -> u32
    ensures value { result ≡ packed_listing (read_of image.now) }
    ensures infos_after { infos.new ≡ infos_in (read_of image.now) }
    ensures numbers_after { numbers.new ≡ read_list image.now }
{
    match issue::read_directory(image, numbers) {
        Ok(told) => {
            let bytes = told.infos;
            *infos = bytes;
            256 * (told.version as u32)
        }
        Err(refusal) => {
            *infos = [0, 0];
            u32::from(refusal.number())
        }
    }
}

// A sector's access bytes, from the bits of its four groups.
pub fn tirlwheel_write_access(image: &mut [u8], sector: u32, bits: &[u8; 4]) -> u32
    ensures value { result ≡ number_of access_number (access_refusal (length image.old) (sector_named sector) bits.now) }
    ensures image_after { image.new ≡ access_image image.old (sector_named sector) bits.now }
{
    match issue::write_access(image, sector_named(sector), *bits) {
        Ok(()) => 0,
        Err(refusal) => u32::from(refusal.number()),
    }
}

// The bits of a sector's four groups.
pub fn tirlwheel_read_access(image: &[u8], sector: u32, bits: &mut [u8; 4]) -> u32
    ensures value { result ≡ number_of access_number (read_access image.now (sector_named sector)) }
    ensures bits_after { bits.new ≡ bits_in (read_access image.now (sector_named sector)) }
{
    match issue::read_access(image, sector_named(sector)) {
        Ok(told) => {
            *bits = told;
            0
        }
        Err(refusal) => {
            *bits = [0, 0, 0, 0];
            u32::from(refusal.number())
        }
    }
}
