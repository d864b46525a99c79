// The figures as sixteen bytes, for callers that lend them: the count, then the sum, low byte first.
ghost use Rattle.std.specs.Prelude.{◌≡◌, ◌+◌, ◌*◌};
ghost use Rattle.tally.specs.Bytes.{eight_of, figures_in, figures_bytes};

use crate::change::Figures;

// Two halves of 64 bits.
fn joined(low: u32, high: u32) -> u64
    ensures { result ≡ low + 4294967296 * high }
{
    low as u64 + 4294967296 * (high as u64)
}

// The eight bytes of 64 bits.
fn eight(n: u64) -> [u8; 8]
    ensures { result ≡ eight_of n }
{
    let low = value::four((n % 4294967296) as u32);
    let high = value::four((n / 4294967296) as u32);
    [
        low[0], low[1], low[2], low[3], high[0], high[1], high[2], high[3],
    ]
}

pub fn decode(bytes: [u8; 16]) -> Figures
    ensures { result ≡ figures_in bytes }
{
    let a = value::word(bytes[0], bytes[1], bytes[2], bytes[3]);
    let b = value::word(bytes[4], bytes[5], bytes[6], bytes[7]);
    let c = value::word(bytes[8], bytes[9], bytes[10], bytes[11]);
    let d = value::word(bytes[12], bytes[13], bytes[14], bytes[15]);
    let count = joined(a, b);
    let sum = joined(c, d);
    Figures { count, sum }
}

pub fn encode(f: Figures) -> [u8; 16]
    ensures { result ≡ figures_bytes f }
{
    let c = eight(f.count);
    let s = eight(f.sum);
    [
        c[0], c[1], c[2], c[3], c[4], c[5], c[6], c[7], s[0], s[1], s[2], s[3], s[4], s[5], s[6],
        s[7],
    ]
}
