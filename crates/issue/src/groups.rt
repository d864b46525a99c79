// A sector's access bytes, from the bits of its four groups, and those bits read back.
ghost use Rattle.std.specs.Prelude.{◌≡◌, ◌+◌, ◌*◌, ◌%◌, ◌<◌, length};
ghost use Rattle.access.specs.Bits.{bits_of};
ghost use Rattle.issue.specs.Groups.{are_bits, sector_refusal, access_refusal, with_inverses, access_for, with_access, access_image, bits_in, told_by, read_access};

use crate::AccessRefusal;
use access::AccessBytes;
use layout::{Group, Sector};

// A nibble from the low bit of each of four groups.
fn nibble(a: u8, b: u8, c: u8, d: u8) -> u8
    ensures { (result ≡ a % 2 + 2 * (b % 2) + 4 * (c % 2) + 8 * (d % 2)) × (result < 16) }
{
    a % 2 + 2 * (b % 2) + 4 * (c % 2) + 8 * (d % 2)
}

// Three nibbles with their inverses.
fn with_inverses(c1: u8, c2: u8, c3: u8) -> AccessBytes
    requires { (c1 < 16) × (c2 < 16) × (c3 < 16) }
    ensures { result ≡ with_inverses c1 c2 c3 }
{
    AccessBytes(
        16 * (15 - c2) + (15 - c1),
        16 * c1 + (15 - c3),
        16 * c3 + c2,
    )
}

// The access bytes of four groups' bits.
fn access_for(bits: [u8; 4]) -> AccessBytes
    ensures { result ≡ access_for bits }
{
    let a = bits[0];
    let b = bits[1];
    let c = bits[2];
    let d = bits[3];
    let c1 = nibble(a / 4, b / 4, c / 4, d / 4);
    let c2 = nibble(a / 2, b / 2, c / 2, d / 2);
    let c3 = nibble(a, b, c, d);
    with_inverses(c1, c2, c3)
}

// Is each group's number 0 to 7?
fn are_bits(bits: [u8; 4]) -> bool
    ensures { result ≡ are_bits bits }
{
    (bits[0] < 8) & (bits[1] < 8) & (bits[2] < 8) & (bits[3] < 8)
}

// Has an image of so many bytes this sector?
#[tactic(auto, unfolding(crate::specs::Groups::sector_refusal))]
fn there(bytes: usize, s: Sector) -> Result<(), AccessRefusal>
    ensures { result ≡ sector_refusal bytes s }
{
    if layout::sectors_of(bytes) == 0 {
        return Err(AccessRefusal::NoCard);
    }
    if layout::has_sector(bytes, s) {
        return Ok(());
    }
    Err(AccessRefusal::NoSector)
}

// May these bits be written to it?
#[tactic(auto, unfolding(crate::specs::Groups::access_refusal))]
fn judged(bytes: usize, s: Sector, bits: [u8; 4]) -> Result<(), AccessRefusal>
    ensures { result ≡ access_refusal bytes s bits }
{
    there(bytes, s)?;
    if are_bits(bits) {
        return Ok(());
    }
    Err(AccessRefusal::NotBits)
}

// A trailer with other access bytes.
fn with_access(trailer: [u8; 16], x: AccessBytes) -> [u8; 16]
    ensures { result ≡ with_access trailer x }
{
    let mut bytes = trailer;
    bytes[6] = x.0;
    bytes[7] = x.1;
    bytes[8] = x.2;
    bytes
}

// The access bytes of a sector, from the bits of its groups in their order: C1 C2 C3 as a binary number each.
#[tactic(auto, unfolding(crate::specs::Groups::access_image))]
pub fn write_access(image: &mut [u8], s: Sector, bits: [u8; 4]) -> Result<(), AccessRefusal>
    ensures value { result ≡ access_refusal (length image.old) s bits }
    ensures image_after { image.new ≡ access_image image.old s bits }
{
    judged(image.len(), s, bits)?;
    let b = layout::trailer_of(s);
    let trailer = memory::content(image, b);
    let after = with_access(trailer, access_for(bits));
    memory::store(image, b, after);
    Ok(())
}

// A group's bits; 0 where the sector is blocked.
#[tactic(auto, unfolding(crate::specs::Groups::bits_in))]
fn bits_in(x: AccessBytes, g: Group) -> u8
    ensures { result ≡ bits_in (bits_of x g) }
{
    access::bits_of(x, g).unwrap_or(0)
}

// What access bytes say of their groups.
fn told_by(x: AccessBytes) -> Result<[u8; 4], AccessRefusal>
    ensures { result ≡ told_by x }
{
    let Some(a) = access::bits_of(x, Group::First) else {
        return Err(AccessRefusal::Blocked);
    };
    let b = bits_in(x, Group::Second);
    let c = bits_in(x, Group::Third);
    let d = bits_in(x, Group::Trailer);
    Ok([a, b, c, d])
}

// The bits of a sector's groups, in their order.
#[tactic(auto, unfolding(crate::specs::Groups::read_access))]
pub fn read_access(image: &[u8], s: Sector) -> Result<[u8; 4], AccessRefusal>
    ensures { result ≡ read_access image.now s }
{
    there(image.len(), s)?;
    let trailer = memory::content(image, layout::trailer_of(s));
    told_by(access::access_bytes_of(trailer))
}
