// Personalize UID Usage: a command of the EV1 alone.
ghost use Rattle.std.specs.Prelude.{◌≡◌, cond, eqb};
ghost use Rattle.edition.specs.Edition.{usage_of};
ghost use Rattle.either_card.specs.Personal.{known, is_personal, chosen, choosing, acknowledged_sign, locked_with};
ghost use Rattle.either_card.specs.Code.{number_told, sector_refusal, zero_refusal, read_refusal, acknowledged_with};

use crate::CardAnswer;
use access::{AccessBytes, Letter, Operation};
use card::{Answer, Sign};
use edition::{CardRecord, Edition, Usage};
use judge::{Act, Refusal};
use layout::{Block, Group, Sector};
use session::{Session, Stage};

fn is_known(edition: Edition) -> bool
    ensures { result ≡ known edition }
{
    match edition {
        Edition::Old => false,
        Edition::Ev1 => true,
    }
}

// The frame is one, on a card of this edition at this stage.
pub(crate) fn is_personal(edition: Edition, stage: Stage, frame: &[u8]) -> bool
    ensures { result ≡ is_personal edition stage frame.now }
{
    is_known(edition)
        & session::is_idle(stage)
        & (frame.len() == 2)
        & (frame::byte(frame, 0) == 0x40)
}

// Checks 5 and 7 of a Read of block 0, by the access bytes of its sector.
fn sector_refusal(x: AccessBytes, l: Letter) -> Result<(), Refusal>
    ensures { number_told result ≡ sector_refusal x l }
{
    let Some(n) = access::bits_of(x, Group::First) else {
        return Err(Refusal::Blocked);
    };
    let Some(m) = access::bits_of(x, Group::Trailer) else {
        return Err(Refusal::Blocked);
    };
    if access::is_mute(l, m) {
        return Err(Refusal::NoRight);
    }
    if access::may(l, Operation::Read, n) {
        return Ok(());
    }
    Err(Refusal::NoRight)
}

// Check 3, then those.
#[tactic(auto, unfolding(crate::specs::Code::zero_refusal, layout::specs::Layout::sector_of))]
fn zero_refusal(image: &[u8], auth: Option<(Sector, Letter)>) -> Result<(), Refusal>
    ensures { number_told result ≡ zero_refusal image.now auth }
{
    match auth {
        Some((Sector(0), l)) => {
            let trailer = memory::content(image, layout::trailer_of(Sector(0)));
            sector_refusal(access::access_bytes_of(trailer), l)
        }
        _ => Err(Refusal::OtherSector),
    }
}

// What a Read of block 0 is refused with on an image of a card, where no second frame is awaited.
#[tactic(auto, unfolding(crate::specs::Code::read_refusal, judge::specs::Checks::incoherent))]
pub(crate) fn refusal_of(image: &[u8], s: Session) -> Result<(), Refusal>
    ensures { number_told result ≡ read_refusal image.now s }
{
    let auth = s.auth;
    let coherent = session::is_coherent(image.len(), s);
    if coherent {
        return zero_refusal(image, auth);
    }
    Err(Refusal::Incoherent)
}

// 17, then 18, then what an accepted one does.
#[tactic(auto, unfolding(crate::specs::Personal::chosen))]
fn chosen(choice: Option<Usage>, code: u8) -> Act
    ensures { result ≡ chosen choice (usage_of code) }
{
    match (edition::usage_of(code), choice) {
        (None, _) => judge::refused(Refusal::UnknownType),
        (Some(_), None) => Act::Shown(Block(0)),
        (Some(_), Some(_)) => judge::refused(Refusal::AlreadyLocked),
    }
}

// What the Read of block 0 is refused with, or the choice.
pub(crate) fn choosing(choice: Option<Usage>, code: u8, read: Result<(), Refusal>) -> Act
    ensures { result ≡ choosing choice (usage_of code) (number_told read) }
{
    match read {
        Ok(()) => chosen(choice, code),
        Err(r) => judge::refused(r),
    }
}

fn acknowledged_sign(sign: Sign) -> Sign
    ensures { result ≡ acknowledged_sign sign }
{
    match sign {
        Sign::Ack => Sign::Ack,
        Sign::Nak => Sign::Nak,
        Sign::Data => Sign::Ack,
        Sign::Nothing => Sign::Nothing,
    }
}

// The choice is locked for good.
#[tactic(auto, unfolding(crate::specs::Personal::locked_with))]
fn locked_with(k: CardRecord, code: u8) -> CardRecord
    ensures { result ≡ locked_with k (usage_of code) }
{
    match edition::usage_of(code) {
        None => k,
        choice => CardRecord { choice, ..k },
    }
}

// Only an accepted one changes the record.
fn next_record(k: CardRecord, n: u8, code: u8) -> CardRecord
    ensures { result ≡ cond (eqb n 0) (locked_with k (usage_of code)) k }
{
    if n == 0 {
        return locked_with(k, code);
    }
    k
}

// The answer to a 40h: an ACK for the data of the Read, and the record.
pub(crate) fn acknowledged(a: CardAnswer, code: u8) -> CardAnswer
    ensures { result ≡ acknowledged_with a code }
{
    let sign = acknowledged_sign(a.answer.sign);
    let card = next_record(a.card, a.answer.number, code);
    CardAnswer {
        answer: Answer {
            sign,
            reply: [0u8; 16],
            ..a.answer
        },
        card,
        ..a
    }
}
