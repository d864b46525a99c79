// A trailer in its parts: as it is read and as it is written.
ghost use Rattle.std.specs.Prelude.{◌≡◌, cond};
ghost use Rattle.access.specs.Rights.{readable_of};
ghost use Rattle.judge.specs.Checks.{writable_by};
ghost use Rattle.card.specs.Trailer.{join_of, shown_trailer, mixed_of};
ghost use Rattle.card.specs.Code.{sight_of, seen_of};

use access::{Letter, Parts};
use layout::Sector;
use std::array;

// Key A of one, bytes 6 to 9 of another, key B of a third.
#[tactic(auto, unfolding(crate::specs::Trailer::join_of))]
fn join(p: [u8; 16], q: [u8; 16], r: [u8; 16]) -> [u8; 16]
    ensures { result ≡ join_of p q r }
{
    let mut joined = r;
    joined[..6].copy_from_slice(&p[..6]);
    joined[6..10].copy_from_slice(&q[6..10]);
    joined
}

// How well each byte is hidden: bytes 6 to 9 least, key B better, key A best.
const HIDING: [u8; 16] = [3, 3, 3, 3, 3, 3, 1, 1, 1, 1, 2, 2, 2, 2, 2, 2];

// How far a Read sees, by the trailer's bits: past the hiding of key B where that key can be read.
const SIGHT: [u8; 8] = [3, 3, 3, 2, 2, 2, 2, 2];

fn sight_of(m: u8) -> u8
    ensures { result ≡ sight_of m }
{
    SIGHT[(m % 8) as usize]
}

fn seen(hiding: u8, sight: u8, byte: u8) -> u8
    ensures { result ≡ seen_of hiding sight byte }
{
    if hiding < sight { byte } else { 0 }
}

// A trailer with the bits m, as a Read shows it: without key A, and without key B unless it can be read.
// Every byte goes by the same comparison, so that they are blanked sixteen at once; a part blanked in a copy costs a wait when the copy is next read.
pub(crate) fn shown(trailer: [u8; 16], m: u8) -> [u8; 16]
    ensures { result ≡ shown_trailer (readable_of m) trailer }
{
    let sight = sight_of(m);
    array::from_fn(|i| seen(HIDING[i], sight, trailer[i]))
}

fn writable_by(auth: Option<(Sector, Letter)>, m: u8) -> Parts
    ensures { result ≡ writable_by auth m }
{
    match auth {
        None => Parts {
            a: false,
            bits: false,
            b: false,
        },
        Some((_, l)) => access::writable(l, m),
    }
}

fn choose(first: bool, x: [u8; 16], y: [u8; 16]) -> [u8; 16]
    ensures { result ≡ cond first x y }
{
    if first { x } else { y }
}

// The parts that may be written are new, and the rest is kept.
fn mixed(p: Parts, old: [u8; 16], new: [u8; 16]) -> [u8; 16]
    ensures { result ≡ mixed_of p old new }
{
    let a = choose(p.a, new, old);
    let bits = choose(p.bits, new, old);
    let b = choose(p.b, new, old);
    join(a, bits, b)
}

// A trailer with the bits m, as a session writes it.
pub(crate) fn written(
    auth: Option<(Sector, Letter)>,
    m: u8,
    old: [u8; 16],
    new: [u8; 16],
) -> [u8; 16]
    ensures { result ≡ mixed_of (writable_by auth m) old new }
{
    mixed(writable_by(auth, m), old, new)
}
