// The script format: an image and the events to play on it. It is judged as a whole before anything is played.
#![tactic(auto)]

ghost use Rattle.std.specs.Prelude.{◌≡◌, ◌<◌, get_or};
ghost use Rattle.script.specs.Script.{refusal_in, count_at, image_size, image_part, event_count, events_start, event_refusal, next_at, events_from, no_size, body_of, reading_of, place_of, left_over};

mod lock;

use edition::Edition;
pub use lock::{Unlawful, ev1_choice, ev1_script};

// What a script is refused for, with the number that its printout has.
#[derive(Clone, Copy)]
pub enum Refusal {
    CutShort = 20,
    NoSuchSize = 21,
    TooManyEvents = 22,
    EventTooLong = 23,
    LeftOver = 24,
    TooManyTypes = 25,
    UnknownType = 26,
}

// A byte of the script; 0 past its end.
fn byte(script: &[u8], at: usize) -> u8
    ensures { result ≡ get_or script.now at 0 }
{
    script.get(at).copied().unwrap_or(0)
}

#[tactic(auto, unfolding(crate::specs::Script::count_at))]
fn count_at(script: &[u8], at: usize) -> usize
    requires { at < 100000 }
    ensures { (result ≡ count_at script.now at) × (result < 65536) }
{
    usize::from(byte(script, at)) + 256 * usize::from(byte(script, at + 1))
}

// The bytes of the image, by their count.
#[tactic(auto, unfolding(crate::specs::Script::image_size))]
pub fn image_size(script: &[u8]) -> usize
    ensures value { result ≡ image_size script.now }
    ensures upper_bound { result < 65536 }
{
    count_at(script, 0)
}

// The image part; nothing where its bytes are not all there.
#[tactic(auto, unfolding(crate::specs::Script::image_part))]
pub fn image_of(script: &[u8]) -> &[u8]
    ensures { result.now ≡ image_part script.now }
{
    let end = 2 + image_size(script);
    script.get(2..end).unwrap_or(&[])
}

#[tactic(auto, unfolding(crate::specs::Script::event_count))]
pub fn event_count(script: &[u8]) -> usize
    ensures { result ≡ event_count script.now }
{
    count_at(script, 2 + image_size(script))
}

// Where the first event stands.
#[tactic(auto, unfolding(crate::specs::Script::events_start))]
pub fn events_start(script: &[u8]) -> usize
    ensures { result ≡ events_start script.now }
{
    4 + image_size(script)
}

// Where the event after the one at a place stands.
#[tactic(auto, unfolding(crate::specs::Script::next_at))]
pub fn next_at(script: &[u8], at: usize) -> usize
    ensures { result ≡ next_at script.now at }
{
    if at < script.len() {
        return at + 1 + usize::from(script[at]);
    }
    at
}

// Refuses the event whose count stands at a place.
#[tactic(auto, unfolding(crate::specs::Script::event_refusal))]
pub fn event_refusal(script: &[u8], at: usize) -> Result<(), Refusal>
    ensures { result ≡ event_refusal script.now at }
{
    if script.len() <= at {
        return Err(Refusal::CutShort);
    }
    let n = usize::from(script[at]);
    if 18 < n {
        return Err(Refusal::EventTooLong);
    }
    if script.len() < at + 1 + n {
        return Err(Refusal::CutShort);
    }
    Ok(())
}

// Where the last of so many events from a place on ends.
fn walk(script: &[u8], count: usize, start: usize) -> Result<usize, Refusal>
    ensures { result ≡ place_of (events_from script.now count start) }
{
    let mut at = start;
    for _ in 0..count {
        event_refusal(script, at)?;
        at = next_at(script, at);
    }
    Ok(at)
}

// Nothing is left over from a place on.
#[tactic(auto, unfolding(crate::specs::Script::left_over))]
fn left_over(script: &[u8], at: usize) -> Result<(), Refusal>
    ensures { result ≡ left_over script.now at }
{
    if at < script.len() {
        return Err(Refusal::LeftOver);
    }
    Ok(())
}

// No card of this edition has an image of so many bytes.
#[tactic(auto, unfolding(crate::specs::Script::no_size))]
fn is_no_size(edition: Edition, size: usize) -> bool
    ensures { result ≡ no_size edition size }
{
    edition::is_wrong_size(edition, size) | (layout::sectors_of(size) == 0)
}

// Where the last event of the script ends.
#[tactic(auto, unfolding(crate::specs::Script::body_of, crate::specs::Script::place_of))]
fn body(edition: Edition, script: &[u8]) -> Result<usize, Refusal>
    ensures { result ≡ place_of (body_of edition script.now) }
{
    let len = script.len();
    if len < 2 {
        return Err(Refusal::CutShort);
    }
    let size = image_size(script);
    if is_no_size(edition, size) {
        return Err(Refusal::NoSuchSize);
    }
    if len < 2 + size {
        return Err(Refusal::CutShort);
    }
    if len < 4 + size {
        return Err(Refusal::CutShort);
    }
    let count = event_count(script);
    if 1000 < count {
        return Err(Refusal::TooManyEvents);
    }
    walk(script, count, events_start(script))
}

// The refusal that is met first in the script of an old card.
#[tactic(auto, unfolding(crate::specs::Script::reading_of))]
pub fn refusal_of(script: &[u8]) -> Result<(), Refusal>
    ensures { result ≡ refusal_in (reading_of script.now) }
{
    let end = body(Edition::Old, script)?;
    left_over(script, end)
}
