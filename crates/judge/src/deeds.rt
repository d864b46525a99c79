// Each command: its checks, and then what it does. A case ends in one expression, so that the act it makes is taken up where it is made.
ghost use Rattle.std.specs.Prelude.{◌≡◌, true, [], ◌∷◌};
ghost use Rattle.layout.specs.Layout.{sector_of};
ghost use Rattle.frame.specs.Command.{command_of};
ghost use Rattle.judge.specs.First.{check, first, ruled};
ghost use Rattle.judge.specs.Checks.{authenticate_checks, kind_column};
ghost use Rattle.judge.specs.Code.{column_of, block_of, is_memory, coded_of};
ghost use Rattle.judge.specs.Judge.{move_of};
ghost use Rattle.session.specs.Session.{is_empty};

use crate::checks::Grant;
use crate::{Act, Refusal, checks, refused, values};
use access::{Letter, Operation};
use frame::Command;
use layout::{Block, Group};
use session::{Kind, Session};

pub(crate) fn authenticate(image: &[u8], l: Letter, b: Block, frame: &[u8]) -> Act
    ensures { result ≡ ruled (first (authenticate_checks image.now l b frame.now)) (Act.Authenticated (sector_of b) l) }
{
    if layout::has_block(image.len(), b) {
        let s = layout::sector_of(b);
        let t = memory::content(image, layout::trailer_of(s));
        match access::bits_of(access::access_bytes_of(t), Group::Trailer) {
            None => refused(Refusal::Blocked),
            Some(_) => {
                if checks::is_key(t, l, frame) {
                    Act::Authenticated(s, l)
                } else {
                    refused(Refusal::WrongKey)
                }
            }
        }
    } else {
        refused(Refusal::NoBlock)
    }
}

fn kind_column(k: Kind) -> Operation
    ensures { result ≡ kind_column k }
{
    match k {
        Kind::Increment => Operation::Increment,
        Kind::Decrement => Operation::Decrement,
        Kind::Restore => Operation::Decrement,
    }
}

fn column_of(c: Command) -> Operation
    ensures { result ≡ column_of c }
{
    match c {
        Command::Unknown => Operation::Read,
        Command::Authenticate(_, _) => Operation::Read,
        Command::Read(_) => Operation::Read,
        Command::Write(_) => Operation::Write,
        Command::Store(_) => Operation::Write,
        Command::Begin(_, k) => kind_column(k),
        Command::Apply(_, k) => kind_column(k),
        Command::Transfer(_) => Operation::Decrement,
        Command::Halt => Operation::Read,
    }
}

fn block_of(c: Command) -> Block
    ensures { result ≡ block_of c }
{
    match c {
        Command::Unknown => Block(0),
        Command::Authenticate(b, _) => b,
        Command::Read(b) => b,
        Command::Write(b) => b,
        Command::Store(b) => b,
        Command::Begin(b, _) => b,
        Command::Apply(b, _) => b,
        Command::Transfer(b) => b,
        Command::Halt => Block(0),
    }
}

// A Transfer after the shared checks: 9, and then the register goes into the block.
fn transfer(register: Option<(u32, u8)>, b: Block) -> Act
    ensures { result ≡ ruled (first (check 9 (is_empty register) ∷ [])) (move_of register b) }
{
    match register {
        None => refused(Refusal::EmptyRegister),
        Some((v, a)) => Act::Moved(b, v, a),
    }
}

// A memory command that the frame asks for: its checks, then what it does.
pub(crate) fn perform(image: &[u8], s: Session, c: Command, frame: &[u8]) -> Act
    requires { (is_memory c ≡ true) × (c ≡ command_of s.stage frame.now) }
    ensures { result ≡ coded_of image.now s c frame.now }
{
    let auth = s.auth;
    let register = s.register;
    match checks::memory_verdict(image, auth, column_of(c), block_of(c)) {
        Err(r) => refused(r),
        Ok(Grant::InParts(m)) => match c {
            Command::Read(b) => Act::TrailerShown(b, m),
            Command::Write(b) => Act::WriteWaits(b),
            Command::Store(b) => Act::TrailerStored(b, m),
            _ => refused(Refusal::Forbidden),
        },
        Ok(Grant::Whole) => match c {
            Command::Read(b) => Act::Shown(b),
            Command::Write(b) => Act::WriteWaits(b),
            Command::Store(b) => Act::Stored(b),
            Command::Begin(b, k) => values::begin(image, k, b),
            Command::Apply(b, k) => values::apply(image, k, b, frame),
            Command::Transfer(b) => transfer(register, b),
            _ => refused(Refusal::Unknown),
        },
    }
}
