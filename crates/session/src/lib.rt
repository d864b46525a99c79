// The session record of a reader: who is authenticated, which second frame is awaited, and the register.
#![tactic(auto)]

ghost use Rattle.std.specs.Prelude.{◌≡◌};
ghost use Rattle.session.specs.Session.{fresh_of, is_idle, coherent_of, in_sector};

use access::Letter;
use layout::{Block, Sector};

// A value operation.
#[derive(Clone, Copy)]
pub enum Kind {
    Increment,
    Decrement,
    Restore,
}

// Which second frame is awaited, and for which block. No Option: being idle is a stage of its own, in the definitions and in the record's codes.
#[derive(Clone, Copy)]
pub enum Stage {
    Idle,
    WriteWaits(Block),
    ValueWaits(Kind, Block),
}

// Who is authenticated, if anybody: for which sector, and under which key. What the register holds, if anything: a value, as its bits, and its address byte.
#[derive(Clone, Copy)]
pub struct Session {
    pub auth: Option<(Sector, Letter)>,
    pub stage: Stage,
    pub register: Option<(u32, u8)>,
}

pub const FRESH: Session = Session {
    auth: None,
    stage: Stage::Idle,
    register: None,
};

pub fn fresh() -> Session
    ensures { result ≡ fresh_of }
{
    FRESH
}

pub fn is_idle(stage: Stage) -> bool
    ensures { result ≡ is_idle stage }
{
    matches!(stage, Stage::Idle)
}

// Does this session pass 12, with an image of so many bytes?
#[tactic(auto, unfolding(crate::specs::Session::coherent_of))]
pub fn is_coherent(bytes: usize, s: Session) -> bool
    ensures { result ≡ coherent_of bytes s }
{
    match s.auth {
        None => is_idle(s.stage) & s.register.is_none(),
        Some((t, _)) => layout::has_sector(bytes, t),
    }
}

// Is this sector the authenticated one?
#[tactic(auto, unfolding(crate::specs::Session::in_sector))]
pub fn in_sector(auth: Option<(Sector, Letter)>, t: Sector) -> bool
    ensures { result ≡ in_sector auth t }
{
    auth.is_some_and(|(s, _)| s == t)
}
