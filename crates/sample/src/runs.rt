// The runs. Each has an image and a session of its own; an event is its frame's length, then the frame.
use crate::{image, print};
use session::Session;
use std::io;

// One event: the card takes the frame, and its line is printed.
fn step(
    rt: &impl Print,
    image: &mut [u8],
    s: Session,
    number: u64,
    frame: &[u8],
) -> io::Result<Session> {
    let a = card::step(image, s, frame);
    print::event(rt, number, a)?;
    Ok(a.session)
}

// Plays events, numbered from 1; an event that is cut short ends with them.
fn play(rt: &impl Print, image: &mut [u8], events: &[u8]) -> io::Result<()> {
    let mut s = session::fresh();
    let mut rest = events;
    for number in 1..u64::MAX {
        let Some((n, after)) = rest.split_first() else {
            break;
        };
        let (frame, others) = after.split_at(after.len().min(usize::from(*n)));
        s = step(rt, image, s, number, frame)?;
        rest = others;
    }
    Ok(())
}

// One is taken off a value of 100; then a block of another sector is refused, and every right is gone.
pub(crate) fn sample(rt: &impl Print) -> io::Result<()> {
    play(
        rt,
        &mut image::delivered(),
        b"\x08\x60\x04\xFF\xFF\xFF\xFF\xFF\xFF\
          \x02\xC0\x04\
          \x04\x01\x00\x00\x00\
          \x02\xB0\x04\
          \x02\x30\x04\
          \x02\x30\x08\
          \x02\x30\x04",
    )
}

// Key B matches and is accepted; since it can be read, the Read is refused.
pub(crate) fn key_b(rt: &impl Print) -> io::Result<()> {
    print::title(rt, "transport trailer, key B")?;
    play(
        rt,
        &mut image::delivered(),
        b"\x08\x61\x04\xFF\xFF\xFF\xFF\xFF\xFF\
          \x02\x30\x04",
    )
}

pub(crate) fn last_block(rt: &impl Print) -> io::Result<()> {
    print::title(rt, "the last block of a 1K card")?;
    play(
        rt,
        &mut image::delivered(),
        b"\x08\x60\x3F\xFF\xFF\xFF\xFF\xFF\xFF\
          \x02\x30\x3F\
          \x02\x30\x40",
    )
}

// The keys are written, and the access bits and the user byte are not.
pub(crate) fn keys_change(rt: &impl Print) -> io::Result<()> {
    print::title(rt, "trailer 000, written by key A")?;
    play(
        rt,
        &mut image::zero_bits(),
        b"\x08\x60\x07\xFF\xFF\xFF\xFF\xFF\xFF\
          \x02\xA0\x07\
          \x10\x11\x22\x33\x44\x55\x66\x00\x00\x00\x00\xAA\xBB\xCC\xDD\xEE\xFF\
          \x08\x60\x07\x11\x22\x33\x44\x55\x66\
          \x02\x30\x07",
    )
}

// After a refused key the rights of before are gone: nothing is transferred, and the value is still 100.
pub(crate) fn wrong_key(rt: &impl Print) -> io::Result<()> {
    print::title(rt, "a wrong key ends every right")?;
    play(
        rt,
        &mut image::delivered(),
        b"\x08\x60\x04\xFF\xFF\xFF\xFF\xFF\xFF\
          \x02\xC0\x04\
          \x04\x01\x00\x00\x00\
          \x08\x60\x04\x00\x00\x00\x00\x00\x00\
          \x02\xB0\x04\
          \x08\x60\x04\xFF\xFF\xFF\xFF\xFF\xFF\
          \x02\x30\x04",
    )
}
