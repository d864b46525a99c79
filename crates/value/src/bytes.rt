// Four bytes as one number, low byte first, there and back.
ghost use Rattle.std.specs.Prelude.{◌≡◌};
ghost use Rattle.value.specs.Block.{word_of, four_of};

// The number that four bytes make.
pub fn word(b0: u8, b1: u8, b2: u8, b3: u8) -> u32
    ensures { result ≡ word_of b0 b1 b2 b3 }
{
    u32::from(b0) + 256 * u32::from(b1) + 65536 * u32::from(b2) + 16777216 * u32::from(b3)
}

// The four bytes of a number.
pub fn four(n: u32) -> [u8; 4]
    ensures { result ≡ four_of n }
{
    [
        (n % 256) as u8,
        (n / 256 % 256) as u8,
        (n / 65536 % 256) as u8,
        (n / 16777216 % 256) as u8,
    ]
}
