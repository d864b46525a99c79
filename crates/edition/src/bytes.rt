// The record as four bytes, for callers that cannot hold an enum: edition, locked or not, type, zero.
// Each code is a function with a definition of its own, which the record's laws name; a `From` would state it a second time.
ghost use Rattle.std.specs.Prelude.{◌≡◌};
ghost use Rattle.edition.specs.Edition.{usage_code};
ghost use Rattle.edition.specs.Bytes.{edition_code, lock_code, type_code, record_bytes, is_usage, is_choice, edition_by, choice_by, named_by, found_in};

use crate::{CardRecord, Edition, Usage, usage_of};

fn edition_code(edition: Edition) -> u8
    ensures { result ≡ edition_code edition }
{
    match edition {
        Edition::Old => 0,
        Edition::Ev1 => 1,
    }
}

fn lock_code(choice: Option<Usage>) -> u8
    ensures { result ≡ lock_code choice }
{
    match choice {
        None => 0,
        Some(_) => 1,
    }
}

fn usage_code(u: Usage) -> u8
    ensures { result ≡ usage_code u }
{
    match u {
        Usage::Double => 0x00,
        Usage::Shortened => 0x40,
        Usage::Random => 0x20,
        Usage::Single => 0x60,
    }
}

fn type_code(choice: Option<Usage>) -> u8
    ensures { result ≡ type_code choice }
{
    choice.map_or(0, usage_code)
}

pub fn encode(k: CardRecord) -> [u8; 4]
    ensures { result ≡ record_bytes k }
{
    let edition = edition_code(k.edition);
    let lock = lock_code(k.choice);
    let usage = type_code(k.choice);
    [edition, lock, usage, 0]
}

// One of the four types.
pub fn is_usage(code: u8) -> bool
    ensures { result ≡ is_usage code }
{
    (code == 0x00) | (code == 0x40) | (code == 0x20) | (code == 0x60)
}

// Open with type 0, or locked with one of the four.
fn is_choice(lock: u8, code: u8) -> bool
    ensures { result ≡ is_choice lock code }
{
    if lock == 0 {
        code == 0
    } else {
        (lock == 1) & is_usage(code)
    }
}

fn edition_by(code: u8) -> Edition
    ensures { result ≡ edition_by code }
{
    if code == 0 {
        return Edition::Old;
    }
    Edition::Ev1
}

pub fn choice_by(lock: u8, code: u8) -> Option<Usage>
    ensures { result ≡ choice_by lock code }
{
    if lock == 0 {
        return None;
    }
    usage_of(code)
}

// The record that four bytes name, whether or not they are one.
fn named_by(bytes: [u8; 4]) -> CardRecord
    ensures { result ≡ named_by bytes }
{
    let edition = edition_by(bytes[0]);
    let choice = choice_by(bytes[1], bytes[2]);
    CardRecord { edition, choice }
}

// The record of four bytes; any others hold none.
pub fn decode(bytes: [u8; 4]) -> Option<CardRecord>
    ensures { result ≡ found_in bytes }
{
    if (bytes[0] < 2) & is_choice(bytes[1], bytes[2]) & (bytes[3] == 0) {
        Some(named_by(bytes))
    } else {
        None
    }
}
