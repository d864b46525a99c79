// The calls of `desk`, under the names by which C and Rust link them.
#![tactic(auto)]

ghost use Rattle.std.specs.Prelude.{◌≡◌, length};
ghost use Rattle.directory.specs.Lookup.{lookup_of};
ghost use Rattle.desk.specs.Desk.{number_of, packed_lookup, packed_listing, infos_in, bits_in, sector_named};
ghost use Rattle.mend.specs.All.{call_number, call_refusal, mended_image, report_of};
ghost use Rattle.issue.specs.Write.{write_number, write_refusal, written_image};
ghost use Rattle.issue.specs.Read.{read_of, read_list};
ghost use Rattle.issue.specs.Groups.{access_number, access_refusal, access_image, read_access};
ghost use Rattle.tally.specs.Bytes.{figures_bytes};
ghost use Rattle.edition.specs.Bytes.{found_in};
ghost use Rattle.desk.specs.Opening.{opened_with, opening_number, opening_figures};

// Which sector of an image is an application's.
#[unsafe(no_mangle)]
pub extern "C" fn tirlwheel_lookup(image: &[u8], application: u32) -> u32
    ensures { result ≡ packed_lookup (lookup_of image.now application) }
{
    desk::tirlwheel_lookup(image, application)
}

// Torn value blocks of an image, mended in the order of their names.
#[unsafe(no_mangle)]
pub extern "C" fn tirlwheel_mend(image: &mut [u8], names: &[u8], report: &mut [u8; 768]) -> u32
    ensures value { result ≡ number_of call_number (call_refusal (length image.old) (length names.now)) }
    ensures image_after { image.new ≡ mended_image image.old names.now }
    ensures report_after { report.new ≡ report_of image.old names.now }
{
    desk::tirlwheel_mend(image, names, report)
}

// The directory of an image, from its info bytes and its numbers.
#[unsafe(no_mangle)]
pub extern "C" fn tirlwheel_write_directory(
    image: &mut [u8],
    infos: &[u8; 2],
    numbers: &[u8],
) -> u32
    ensures value { result ≡ number_of write_number (write_refusal (length image.old) (length numbers.now)) }
    ensures image_after { image.new ≡ written_image image.old infos.now numbers.now }
{
    desk::tirlwheel_write_directory(image, infos, numbers)
}

// The directory of an image, read in full.
#[unsafe(no_mangle)]
pub extern "C" fn tirlwheel_read_directory(
    image: &[u8],
    infos: &mut [u8; 2],
    numbers: &mut [u8; 76],
) -> u32
    ensures value { result ≡ packed_listing (read_of image.now) }
    ensures infos_after { infos.new ≡ infos_in (read_of image.now) }
    ensures numbers_after { numbers.new ≡ read_list image.now }
{
    desk::tirlwheel_read_directory(image, infos, numbers)
}

// A sector's access bytes, from the bits of its four groups.
#[unsafe(no_mangle)]
pub extern "C" fn tirlwheel_write_access(image: &mut [u8], sector: u32, bits: &[u8; 4]) -> u32
    ensures value { result ≡ number_of access_number (access_refusal (length image.old) (sector_named sector) bits.now) }
    ensures image_after { image.new ≡ access_image image.old (sector_named sector) bits.now }
{
    desk::tirlwheel_write_access(image, sector, bits)
}

// The bits of a sector's four groups.
#[unsafe(no_mangle)]
pub extern "C" fn tirlwheel_read_access(image: &[u8], sector: u32, bits: &mut [u8; 4]) -> u32
    ensures value { result ≡ number_of access_number (read_access image.now (sector_named sector)) }
    ensures bits_after { bits.new ≡ bits_in (read_access image.now (sector_named sector)) }
{
    desk::tirlwheel_read_access(image, sector, bits)
}

// The figures of an image, to be kept beside it from now on.
#[unsafe(no_mangle)]
pub extern "C" fn tirlwheel_open(image: &[u8], card: &[u8; 4], figures: &mut [u8; 16]) -> u32
    ensures value { result ≡ opening_number (opened_with image.now (found_in card.now)) }
    ensures figures_after { figures.new ≡ figures_bytes (opening_figures (opened_with image.now (found_in card.now))) }
{
    desk::tirlwheel_open(image, card, figures)
}
