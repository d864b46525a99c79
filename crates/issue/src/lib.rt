// The issuing desk: the application directory written and read back in full, and a sector's access bytes from its groups' bits.
// Keys, rights and blocked sectors play no part.
#![tactic(auto)]

ghost use Rattle.std.specs.Prelude.{◌≡◌};
ghost use Rattle.issue.specs.Groups.{access_number};
ghost use Rattle.issue.specs.Write.{write_number};

mod groups;
mod read;
mod write;

pub use groups::{read_access, write_access};
pub use read::{Listing, read_directory};
pub use write::write_directory;

// Why a directory is not written, by the number of the refusal: no card has this size, a card of fewer than sixteen sectors has no directory, or the numbers are for
// no version.
#[derive(Clone, Copy)]
pub enum WriteRefusal {
    NoCard = 11,
    TooSmall = 15,
    WrongCount = 27,
}

impl WriteRefusal {
    pub fn number(self) -> u8
        ensures { result ≡ write_number self }
    {
        self as u8
    }
}

// Why a sector's access bytes are not written or not read, by the number of the refusal: no such sector, the sector is blocked, no card has this size, or bits above 7.
#[derive(Clone, Copy)]
pub enum AccessRefusal {
    NoSector = 2,
    Blocked = 5,
    NoCard = 11,
    NotBits = 28,
}

impl AccessRefusal {
    pub fn number(self) -> u8
        ensures { result ≡ access_number self }
    {
        self as u8
    }
}
