// The figures as one block's content changes. Each is held as its 64 bits, and the promises read it in ℤ.
ghost use Rattle.std.specs.Prelude.{◌≡◌, ◌<◌};
ghost use Rattle.value.specs.Whole.{signed};
ghost use Rattle.tally.specs.Whole.{whole, held};
ghost use Rattle.tally.specs.Change.{figures_of, count_fits, sum_fits, in_range, count_share, sum_share, added_to, taken_from, settled_of};

// How many value blocks there are, and the sum of their values.
#[derive(Clone, Copy)]
pub struct Figures {
    pub count: u64,
    pub sum: u64,
}

fn count_fits(count: u64) -> bool
    ensures { result ≡ count_fits (whole count) }
{
    count <= 255
}

// The bits moved up, so that the lowest sum in range is 0.
fn sum_fits(sum: u64) -> bool
    ensures { result ≡ sum_fits (whole sum) }
{
    std::num::wrapping_add_u64(sum, 547608330240) <= 1095216660225
}

pub fn in_range(f: Figures) -> bool
    ensures { result ≡ in_range f }
{
    let count = count_fits(f.count);
    let sum = sum_fits(f.sum);
    count & sum
}

// The 64 bits of a value.
fn extended(value: u32) -> u64
    ensures { result ≡ held (signed value) }
{
    let up = (value as u64 + 2147483648) % 4294967296;
    std::num::wrapping_sub_u64(up, 2147483648)
}

// The share of sixteen bytes.
pub(crate) fn share_of(block: [u8; 16]) -> Figures
    ensures { result ≡ figures_of (count_share block) (sum_share block) }
{
    let Some((value, _)) = value::decode(block) else {
        return Figures { count: 0, sum: 0 };
    };
    let sum = extended(value);
    Figures { count: 1, sum }
}

// Figures with a share added.
pub(crate) fn added(f: Figures, share: Figures) -> Figures
    ensures { result ≡ added_to f share }
{
    let count = std::num::wrapping_add_u64(f.count, share.count);
    let sum = std::num::wrapping_add_u64(f.sum, share.sum);
    Figures { count, sum }
}

// Taken off, and it is told that what was given has 64 bits each.
fn taken(f: Figures, share: Figures) -> Figures
    ensures value { result ≡ taken_from f share }
    ensures count_bound { (f.count < 18446744073709551616) × (f.sum < 18446744073709551616) }
{
    let count = std::num::wrapping_sub_u64(f.count, share.count);
    let sum = std::num::wrapping_sub_u64(f.sum, share.sum);
    Figures { count, sum }
}

// The figures after a block's content went from old to new; none where they leave their ranges. On the way between they may be anything.
pub fn after(f: Figures, old: [u8; 16], new: [u8; 16]) -> Option<Figures>
    ensures { result ≡ settled_of f old new }
{
    let less = share_of(old);
    let more = share_of(new);
    let between = taken(f, less);
    let next = added(between, more);
    if in_range(next) {
        return Some(next);
    }
    None
}
