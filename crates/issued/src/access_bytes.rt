// Does the crate `issue` write the access bytes of a record, and read its bits back?
use crate::record;
use layout::Sector;

// The bits of the four groups.
fn bits_of(record: &[u8]) -> [u8; 4] {
    let a = record::byte(record, 0);
    let b = record::byte(record, 1);
    let c = record::byte(record, 2);
    let d = record::byte(record, 3);
    [a, b, c, d]
}

// Is the trailer one of zeros with the record's three bytes?
fn is_written(trailer: [u8; 16], record: &[u8]) -> bool {
    let mut expected = [0u8; 16];
    expected[6] = record::byte(record, 4);
    expected[7] = record::byte(record, 5);
    expected[8] = record::byte(record, 6);
    expected == trailer
}

// A record: the bits of the groups 0, 1, 2 and 3, and the access bytes that hold them.
pub(crate) fn agree(record: &[u8]) -> bool {
    let mut image = [0u8; 1024];
    let bits = bits_of(record);
    let written = issue::write_access(&mut image, Sector(5), bits).is_ok();
    let trailer = memory::content(&image, layout::trailer_of(Sector(5)));
    let Ok(told) = issue::read_access(&image, Sector(5)) else {
        return false;
    };
    written & is_written(trailer, record) & (told == bits)
}
