// Torn value blocks, mended where most of their readings agree.
#![tactic(auto)]

ghost use Rattle.std.specs.Prelude.{◌≡◌};
ghost use Rattle.mend.specs.All.{call_number};
ghost use Rattle.mend.specs.One.{block_number};

mod all;
mod one;
mod rule;

pub use all::mend;
pub use one::mend_block;
pub use rule::majority_of;

// Why a block is not mended, by the number of the refusal: the image has no such block, it is block 0 or a trailer, or it has no majority.
#[derive(Clone, Copy)]
pub enum BlockRefusal {
    NoBlock = 2,
    NotData = 6,
    NoMajority = 19,
}

impl BlockRefusal {
    pub fn number(self) -> u8
        ensures { result ≡ block_number self }
    {
        self as u8
    }
}

// Why a call is refused, by the number of the refusal: no card has this size, or there are more than 256 names.
#[derive(Clone, Copy)]
pub enum CallRefusal {
    NoCard = 11,
    TooManyNames = 30,
}

impl CallRefusal {
    pub fn number(self) -> u8
        ensures { result ≡ call_number self }
    {
        self as u8
    }
}
