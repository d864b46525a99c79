// Figures of the access bits.
use access::AccessBytes;
use layout::Group;

const GROUPS: [Group; 4] = [Group::First, Group::Second, Group::Third, Group::Trailer];

// The access bytes of a trailer that holds three fields as its bytes 6, 7 and 8.
fn access_bytes(b6: u8, b7: u8, b8: u8) -> AccessBytes {
    access::access_bytes_of([0, 0, 0, 0, 0, 0, b6, b7, b8, 0, 0, 0, 0, 0, 0, 0])
}

fn has_bits(x: AccessBytes, g: Group, bits: u8) -> bool {
    access::bits_of(x, g) == Some(bits)
}

fn is_open(x: AccessBytes, g: Group) -> bool {
    access::bits_of(x, g).is_some()
}

// A line: the bits of the groups 0, 1, 2 and 3, then the access bytes that hold them.
pub(crate) fn agrees(f: [u8; 22]) -> bool {
    let x = access_bytes(f[4], f[5], f[6]);
    let same = (x.0 == f[4]) & (x.1 == f[5]) & (x.2 == f[6]);
    same & GROUPS
        .iter()
        .zip(&f)
        .all(|(g, bits)| has_bits(x, *g, *bits))
}

// A line: the access bytes, then 1 where they are well formed and 0 where the sector is blocked.
pub(crate) fn agrees_in_form(f: [u8; 22]) -> bool {
    let x = access_bytes(f[0], f[1], f[2]);
    GROUPS.iter().all(|g| is_open(x, *g) as u8 == f[3])
}
