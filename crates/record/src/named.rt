// The parts of a session that codes and bytes name; an unknown code names none. No `TryFrom`: what is no record was refused before (`is_record`), and a definition for each stands in the record's laws.
ghost use Rattle.std.specs.Prelude.{◌≡◌};
ghost use Rattle.record.specs.Record.{auth_by, stage_by, register_by};

use access::Letter;
use layout::{Block, Sector};
use session::{Kind, Stage};

#[tactic(auto, unfolding(crate::specs::Record::auth_by))]
pub(crate) fn auth_by(who: u8, sector: u8) -> Option<(Sector, Letter)>
    ensures { result ≡ auth_by who sector }
{
    match who {
        1 => Some((Sector(sector), Letter::KeyA)),
        2 => Some((Sector(sector), Letter::KeyB)),
        _ => None,
    }
}

#[tactic(auto, unfolding(crate::specs::Record::stage_by))]
pub(crate) fn stage_by(code: u8, block: u8) -> Stage
    ensures { result ≡ stage_by code block }
{
    match code {
        1 => Stage::WriteWaits(Block(block)),
        2 => Stage::ValueWaits(Kind::Increment, Block(block)),
        3 => Stage::ValueWaits(Kind::Decrement, Block(block)),
        4 => Stage::ValueWaits(Kind::Restore, Block(block)),
        _ => Stage::Idle,
    }
}

pub(crate) fn register_by(full: u8, address: u8, value: u32) -> Option<(u32, u8)>
    ensures { result ≡ register_by full address value }
{
    if full == 1 {
        return Some((value, address));
    }
    None
}
