// The judgement of a frame: every check in its order, none after the one that refuses, and what the frame then does.
#![tactic(auto)]

ghost use Rattle.std.specs.Prelude.{◌≡◌};
ghost use Rattle.judge.specs.Judge.{judge_of};
ghost use Rattle.judge.specs.Code.{refusal_number, shortened};
ghost use Rattle.judge.specs.declared.Act.TheVariants.{Refused};

mod checks;
mod deeds;
mod values;

use access::Letter;
pub use checks::Grant;
use frame::Command;
use layout::{Block, Sector};
use session::{Kind, Session};

// Why a frame is refused, with the number that its answer has. A checksum, a type and figures are judged above this crate.
#[derive(Clone, Copy)]
pub enum Refusal {
    Unknown = 1,
    NoBlock = 2,
    OtherSector = 3,
    WrongKey = 4,
    Blocked = 5,
    Forbidden = 6,
    NoRight = 7,
    NoValue = 8,
    EmptyRegister = 9,
    OutOfRange = 10,
    NoCard = 11,
    Incoherent = 12,
    NegativeOperand = 13,
    WrongChecksum = 14,
    UnknownType = 17,
    AlreadyLocked = 18,
    FiguresOutside = 29,
}

impl Refusal {
    pub fn number(self) -> u8
        ensures { result ≡ refusal_number self }
    {
        self as u8
    }
}

// What a frame does: it is refused with a number, or accepted with what its effects need.
// A refusal has its number here, as the definitions of the judgement and demand 1 name it so.
// TrailerShown and TrailerStored carry the trailer's bits, which say which parts. A case that has a block has it first. A Write that may change every part of a trailer is given as Stored.
#[derive(Clone, Copy)]
pub enum Act {
    Refused(u8),
    Authenticated(Sector, Letter),
    Shown(Block),
    TrailerShown(Block, u8),
    WriteWaits(Block),
    ValueWaits(Block, Kind),
    Stored(Block),
    TrailerStored(Block, u8),
    Loaded(u32, u8),
    Moved(Block, u32, u8),
    Halted,
}

pub fn refused(r: Refusal) -> Act
    ensures { result ≡ Refused (refusal_number r) }
{
    Act::Refused(r.number())
}

pub fn judge(image: &[u8], s: Session, frame: &[u8]) -> Act
    ensures { result ≡ shortened s.auth (judge_of image.now s frame.now) }
{
    let stage = s.stage;
    if checks::is_no_card(image) {
        refused(Refusal::NoCard)
    } else if session::is_coherent(image.len(), s) {
        let c = frame::command_of(stage, frame);
        match c {
            Command::Unknown => refused(Refusal::Unknown),
            Command::Authenticate(b, l) => deeds::authenticate(image, l, b, frame),
            Command::Halt => Act::Halted,
            _ => deeds::perform(image, s, c, frame),
        }
    } else {
        refused(Refusal::Incoherent)
    }
}
