// The checksum eight bytes at a time. A word is eight bytes, the first one highest. What of a word goes past its end comes back lower down: modulo the polynomial
// x^64 is x^16 + x^14, x^50 is x^2 + 1, x^25 is x + 1, and x^16 is x^6 + x^3 + x^2.
ghost use Rattle.std.specs.Prelude.{◌≡◌, take, drop};
ghost use Rattle.directory.specs.Checksum.{shifts, bytes_on};
ghost use Rattle.directory.specs.Code.{feed, standing, low_bits_of, Holds};

// The byte that brings a register of zeros to C7h.
const START: u8 = 0x67;

// A word that stands for what another and eight more bytes leave.
fn fold(s: u64, w: u64) -> u64
    ensures { standing result ≡ feed 8 (standing s) w }
{
    let u = s ^ (s >> 48) ^ (s >> 50);
    (u << 16) ^ (u << 14) ^ w
}

// Eight shift steps of a byte.
pub(crate) fn step(t: u8) -> u8
    ensures { result ≡ shifts 8 t }
{
    let u = t ^ (t >> 4) ^ (t >> 5) ^ (t >> 6);
    u ^ (u << 2) ^ (u << 3) ^ (u << 4)
}

// A word's sixteen low bits, to which the others have come back.
fn low_bits(s: u64) -> u64
    ensures { result ≡ low_bits_of s }
{
    let a = (s % 1125899906842624) ^ (s >> 50) ^ ((s >> 50) << 2);
    let b = (a % 33554432) ^ (a >> 25) ^ ((a >> 25) << 1);
    let c = b >> 16;
    (b % 65536) ^ (c << 6) ^ (c << 3) ^ (c << 2)
}

// The register that a word stands for.
pub(crate) fn register(s: u64) -> u8
    ensures { result ≡ standing s }
{
    let bits = low_bits(s);
    let high = step((bits / 256 % 256) as u8);
    let low = (bits % 256) as u8;
    step(low ^ high)
}

// Eight bytes as a word.
fn word(bytes: [u8; 8]) -> u64
    ensures { Holds result bytes }
{
    u64::from_be_bytes(bytes)
}

fn first_word(block: [u8; 16]) -> u64
    ensures { Holds result (take 8 block) }
{
    word([
        block[0], block[1], block[2], block[3], block[4], block[5], block[6], block[7],
    ])
}

fn second_word(block: [u8; 16]) -> u64
    ensures { Holds result (drop 8 block) }
{
    word([
        block[8], block[9], block[10], block[11], block[12], block[13], block[14], block[15],
    ])
}

// A word that stands for the bytes of a part's first block. Its own first byte is the checksum, which is not among those it is over.
pub(crate) fn open(block: [u8; 16]) -> u64
    ensures { standing result ≡ bytes_on 0xC7 (drop 1 block) }
{
    let first = word([
        START, block[1], block[2], block[3], block[4], block[5], block[6], block[7],
    ]);
    fold(first, second_word(block))
}

// And for eight bytes more.
pub(crate) fn eight_more(s: u64, bytes: [u8; 8]) -> u64
    ensures { standing result ≡ bytes_on (standing s) bytes }
{
    fold(s, word(bytes))
}

// And for sixteen.
pub(crate) fn more(s: u64, block: [u8; 16]) -> u64
    ensures { standing result ≡ bytes_on (standing s) block }
{
    let half = fold(s, first_word(block));
    fold(half, second_word(block))
}
