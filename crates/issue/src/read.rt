// The directory, read back in full.
ghost use Rattle.std.specs.Prelude.{◌≡◌, replicate};
ghost use Rattle.directory.specs.Directory.{entries_of};
ghost use Rattle.issue.specs.Read.{infos_of, list_of, read_of, read_list};

use directory::{Part, Refusal, Version};

// What reading gives beside the list: the version, and the info bytes, 0 where there is none.
#[derive(Clone, Copy)]
pub struct Listing {
    pub version: Version,
    pub infos: [u8; 2],
}

// The info bytes of a version.
#[tactic(auto, unfolding(crate::specs::Read::infos_of))]
fn infos_of(image: &[u8], version: Version) -> [u8; 2]
    ensures { result ≡ infos_of image.now version }
{
    match version {
        Version::One => [directory::info_byte(image, Part::First), 0],
        Version::Two => [
            directory::info_byte(image, Part::First),
            directory::info_byte(image, Part::Second),
        ],
    }
}

// The numbers of a version, two bytes each, on a list of zeros.
fn list(image: &[u8], version: Version, numbers: &mut [u8; 76])
    requires { numbers.old ≡ replicate 76 0 }
    ensures { numbers.new ≡ list_of (entries_of image.now version) }
{
    let count = directory::entry_count(version) as usize;
    for i in 0..count {
        let number = directory::entry_at(image, i as u8 + 1);
        numbers[2 * i..2 * i + 2].copy_from_slice(&number.to_le_bytes());
    }
}

// A directory that is not refused, in full; nothing but zeros of one that is. The list is lent, since C lends it.
#[tactic(auto, unfolding(crate::specs::Read::read_of, crate::specs::Read::listed, crate::specs::Read::read_list, crate::specs::Read::entries_read, crate::specs::Read::list_of, crate::specs::Read::bytes_of))]
pub fn read_directory(image: &[u8], numbers: &mut [u8; 76]) -> Result<Listing, Refusal>
    ensures value { result ≡ read_of image.now }
    ensures numbers_after { numbers.new ≡ read_list image.now }
{
    *numbers = [0u8; 76];
    let version = directory::intact_version(image)?;
    list(image, version, numbers);
    let infos = infos_of(image, version);
    Ok(Listing { version, infos })
}
