// The boundary of the desk's tools to C and Rust: numbers and lent bytes. They take an image alone, and no session.
#![tactic(auto)]

ghost use Rattle.std.specs.Prelude.{◌≡◌, length};
ghost use Rattle.directory.specs.Lookup.{lookup_of};
ghost use Rattle.mend.specs.All.{call_number, call_refusal, mended_image, report_of};
ghost use Rattle.desk.specs.Desk.{number_of, packed_looked, packed_lookup};

use directory::Looked;

mod issuing;
mod opening;

pub use issuing::{
    tirlwheel_read_access, tirlwheel_read_directory, tirlwheel_write_access,
    tirlwheel_write_directory,
};
pub use opening::tirlwheel_open;

// Whether there is a sector, the sector, and the count.
fn packed(a: Looked) -> u32
    ensures { result ≡ packed_looked a }
{
    let count = 16777216 * u32::from(a.count);
    let Some(sector) = a.found else {
        return count;
    };
    256 + 65536 * u32::from(sector.0) + count
}

// Which sector of an image is an application's.
pub fn tirlwheel_lookup(image: &[u8], application: u32) -> u32
    ensures { result ≡ packed_lookup (lookup_of image.now application) }
{
    let told = directory::lookup(image, application);
    told.map_or_else(|refusal| u32::from(refusal.number()), packed)
}

// Torn value blocks of an image, mended in the order of their names.
pub fn tirlwheel_mend(image: &mut [u8], names: &[u8], report: &mut [u8; 768]) -> u32
    ensures value { result ≡ number_of call_number (call_refusal (length image.old) (length names.now)) }
    ensures image_after { image.new ≡ mended_image image.old names.now }
    ensures report_after { report.new ≡ report_of image.old names.now }
{
    match mend::mend(image, names, report) {
        Ok(()) => 0,
        Err(refusal) => u32::from(refusal.number()),
    }
}
