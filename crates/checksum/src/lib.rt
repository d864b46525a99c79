// CRC_A of ISO/IEC 14443-3, a byte at a time by a table.
#![tactic(auto)]

ghost use Rattle.std.specs.Prelude.{◌≡◌};
ghost use Rattle.checksum.specs.Checksum.{byte_on, crc_of, two_of};

mod table;

// The register after one byte more.
#[tactic(auto, using(crate::proofs::Linear::eight), unfolding(crate::specs::Checksum::byte_on))]
fn with_byte(c: u16, byte: u8) -> u16
    ensures { result ≡ byte_on c byte }
{
    let x = c ^ u16::from(byte);
    (x / 256) ^ table::entry((x % 256) as u8)
}

// The checksum of some bytes.
#[tactic(auto, unfolding(crate::specs::Checksum::bytes_on, crate::specs::Checksum::crc_of))]
pub fn crc_a(bytes: &[u8]) -> u16
    ensures { result ≡ crc_of bytes.now }
{
    bytes.iter().fold(0x6363, |c, b| with_byte(c, *b))
}

// A checksum as it goes over the air: the low byte, then the high one.
#[tactic(auto, unfolding(crate::specs::Checksum::two_of))]
pub fn two(crc: u16) -> [u8; 2]
    ensures { result ≡ two_of crc }
{
    [(crc % 256) as u8, (crc / 256) as u8]
}
