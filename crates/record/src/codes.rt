// The parts of a session as codes and bytes. Each is a function with a definition of its own, which the record's laws name; a `From` would state it a second time.
ghost use Rattle.std.specs.Prelude.{◌≡◌};
ghost use Rattle.record.specs.Record.{who_code, sector_byte, stage_code, block_byte, full_code, address_byte, value_bits};

use access::Letter;
use layout::Sector;
use session::{Kind, Stage};

pub(crate) fn who_code(auth: Option<(Sector, Letter)>) -> u8
    ensures { result ≡ who_code auth }
{
    match auth {
        None => 0,
        Some((_, Letter::KeyA)) => 1,
        Some((_, Letter::KeyB)) => 2,
    }
}

pub(crate) fn sector_byte(auth: Option<(Sector, Letter)>) -> u8
    ensures { result ≡ sector_byte auth }
{
    auth.map_or(0, |(t, _)| t.0)
}

pub(crate) fn stage_code(stage: Stage) -> u8
    ensures { result ≡ stage_code stage }
{
    match stage {
        Stage::Idle => 0,
        Stage::WriteWaits(_) => 1,
        Stage::ValueWaits(Kind::Increment, _) => 2,
        Stage::ValueWaits(Kind::Decrement, _) => 3,
        Stage::ValueWaits(Kind::Restore, _) => 4,
    }
}

pub(crate) fn block_byte(stage: Stage) -> u8
    ensures { result ≡ block_byte stage }
{
    match stage {
        Stage::Idle => 0,
        Stage::WriteWaits(b) | Stage::ValueWaits(_, b) => b.0,
    }
}

pub(crate) fn full_code(register: Option<(u32, u8)>) -> u8
    ensures { result ≡ full_code register }
{
    register.map_or(0, |_| 1)
}

pub(crate) fn address_byte(register: Option<(u32, u8)>) -> u8
    ensures { result ≡ address_byte register }
{
    register.map_or(0, |(_, a)| a)
}

pub(crate) fn value_bits(register: Option<(u32, u8)>) -> u32
    ensures { result ≡ value_bits register }
{
    register.map_or(0, |(v, _)| v)
}
