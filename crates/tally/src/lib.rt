// The count and the sum of all value blocks on a card, kept beside its image.
#![tactic(auto)]

ghost use Rattle.std.specs.Prelude.{◌≡◌};
ghost use Rattle.tally.specs.Full.{refusal_number};

mod bytes;
mod change;
mod full;

pub use bytes::{decode, encode};
pub use change::{Figures, after, in_range};
pub use full::open;

// Why a card is not opened, by the number of the refusal: no card has this size.
#[derive(Clone, Copy)]
pub enum Refusal {
    NoCard = 11,
}

impl Refusal {
    pub fn number(self) -> u8
        ensures { result ≡ refusal_number self }
    {
        self as u8
    }
}
