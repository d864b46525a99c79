// The card's record: its edition, and how its UID is to be used.
#![tactic(auto)]

ghost use Rattle.std.specs.Prelude.{◌≡◌};
ghost use Rattle.edition.specs.Edition.{old_card, usage_of, wrong_size};

mod bytes;

pub use bytes::{choice_by, decode, encode, is_usage};

#[derive(Clone, Copy)]
pub enum Edition {
    Old,
    Ev1,
}

// How a card shows its UID: the four types of Personalize UID Usage.
#[derive(Clone, Copy)]
pub enum Usage {
    Double,
    Shortened,
    Random,
    Single,
}

// The choice of a type is made once and then locked for good; a card without one is open to it.
#[derive(Clone, Copy)]
pub struct CardRecord {
    pub edition: Edition,
    pub choice: Option<Usage>,
}

// A card of the old edition, which knows no choice.
pub fn old_card() -> CardRecord
    ensures { result ≡ old_card }
{
    CardRecord {
        edition: Edition::Old,
        choice: None,
    }
}

// The type that a byte asks for; none for a byte that is no type.
pub fn usage_of(code: u8) -> Option<Usage>
    ensures { result ≡ usage_of code }
{
    match code {
        0x00 => Some(Usage::Double),
        0x40 => Some(Usage::Shortened),
        0x20 => Some(Usage::Random),
        0x60 => Some(Usage::Single),
        _ => None,
    }
}

// An EV1 has one size.
pub fn is_wrong_size(edition: Edition, bytes: usize) -> bool
    ensures { result ≡ wrong_size edition bytes }
{
    match edition {
        Edition::Old => false,
        Edition::Ev1 => bytes != 4096,
    }
}
