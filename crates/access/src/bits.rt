// The bits C1 C2 C3 of a group, from the three access bytes.
ghost use Rattle.std.specs.Prelude.{◌≡◌, ◌<◌, ◌+◌, ◌*◌, ◌/◌, ◌%◌};
ghost use Rattle.access.specs.Bits.{access_bytes_of, well_formed, bits_of};

use layout::Group;

// Bytes 6, 7 and 8 of a trailer.
#[derive(Clone, Copy)]
pub struct AccessBytes(pub u8, pub u8, pub u8);

pub fn access_bytes_of(trailer: [u8; 16]) -> AccessBytes
    ensures { result ≡ access_bytes_of trailer }
{
    AccessBytes(trailer[6], trailer[7], trailer[8])
}

// Each of the three nibbles agrees with its inverse. Byte 6 has the inverses of C2 and C1 side by side, so both are compared at once.
fn is_well_formed(x: AccessBytes) -> bool
    ensures { result ≡ well_formed x }
{
    let six = x.0;
    let seven = x.1;
    let eight = x.2;
    let c2_c1 = 16 * (eight % 16) + seven / 16;
    let c3 = eight / 16 + seven % 16 == 15;
    (six == 255 - c2_c1) & c3
}

// The bits that stand at one place of three nibbles; the place counts 1, 2, 4 or 8.
fn bits_at(c1: u8, c2: u8, c3: u8, place: u8) -> u8
    requires { 0 < place }
    ensures { result ≡ 4 * (c1 / place % 2) + 2 * (c2 / place % 2) + c3 / place % 2 }
{
    4 * (c1 / place % 2) + 2 * (c2 / place % 2) + c3 / place % 2
}

// A group's C1 C2 C3 as a binary number; none where the sector is blocked. The nibbles are tested first; then only that group's bits are picked out.
pub fn bits_of(x: AccessBytes, g: Group) -> Option<u8>
    ensures { result ≡ bits_of x g }
{
    if !is_well_formed(x) {
        return None;
    }
    let c1 = x.1 / 16;
    let c2 = x.2 % 16;
    let c3 = x.2 / 16;
    Some(match g {
        Group::First => bits_at(c1, c2, c3, 1),
        Group::Second => bits_at(c1, c2, c3, 2),
        Group::Third => bits_at(c1, c2, c3, 4),
        Group::Trailer => bits_at(c1, c2, c3, 8),
    })
}
