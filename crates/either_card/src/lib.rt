// A card of either edition, with its record.
#![tactic(auto)]

ghost use Rattle.std.specs.Prelude.{◌≡◌};
ghost use Rattle.judge.specs.Code.{shortened};
ghost use Rattle.card.specs.Effects.{image_of};
ghost use Rattle.card.specs.Step.{refusal_of};
ghost use Rattle.either_card.specs.Either.{card_act_of, given_for, card_answer_of, card_image_after, card_reset_of, card_no_session_of};
ghost use Rattle.either_card.specs.Code.{given_of};

mod nak;
mod personal;
mod sealing;

use card::Answer;
use edition::CardRecord;
use judge::{Act, Refusal};
pub use sealing::{SealedCardAnswer, sealed_card, sealed_no_session, sealed_step};
use session::Session;

// The answer, the value of its NAK (0 where there is none) and the record afterwards.
#[derive(Clone, Copy)]
pub struct CardAnswer<R = [u8; 16]> {
    pub answer: Answer<R>,
    pub nak: u8,
    pub card: CardRecord,
}

// A bare answer with the value of its NAK; the record is kept.
fn given(k: CardRecord, register: Option<(u32, u8)>, a: Answer) -> CardAnswer
    ensures { result ≡ given_of k register a }
{
    let nak = nak::nak_of(k.edition, register, a.sign, a.number);
    CardAnswer {
        answer: a,
        nak,
        card: k,
    }
}

// A refusal: the value of its NAK goes by the register that was handed in.
pub fn refusal(k: CardRecord, s: Session, n: u8) -> CardAnswer
    ensures { result ≡ given_of k s.register (refusal_of n) }
{
    given(k, s.register, card::refusal(n))
}

// What a frame does to a card with this record.
pub fn judge(image: &[u8], k: CardRecord, s: Session, frame: &[u8]) -> Act
    ensures { result ≡ shortened s.auth (card_act_of image.now k s frame.now) }
{
    if edition::is_wrong_size(k.edition, image.len()) {
        judge::refused(Refusal::NoCard)
    } else if personal::is_personal(k.edition, s.stage, frame) {
        personal::choosing(
            k.choice,
            frame::byte(frame, 1),
            personal::refusal_of(image, s),
        )
    } else {
        judge::judge(image, s, frame)
    }
}

// What an act of a frame does: the answer with its NAK's value, the record, and the image as it is afterwards.
pub fn enact(image: &mut [u8], k: CardRecord, s: Session, act: Act, frame: &[u8]) -> CardAnswer
    ensures value { result ≡ given_for image.old k s frame.now act }
    ensures image_after { image.new ≡ image_of image.old s.auth act frame.now }
{
    let a = given(k, s.register, card::enact(image, s, act, frame));
    if personal::is_personal(k.edition, s.stage, frame) {
        return personal::acknowledged(a, frame::byte(frame, 1));
    }
    a
}

// Any image, any record, any session, any frame: the answer, and the image as it is afterwards.
// Record and session are parameters of their own, and no struct: callers keep each in lent bytes of its own, and the promise of this call names them so.
pub fn step(image: &mut [u8], k: CardRecord, s: Session, frame: &[u8]) -> CardAnswer
    ensures value { result ≡ card_answer_of image.old k s frame.now }
    ensures image_after { image.new ≡ card_image_after image.old k s frame.now }
{
    let act = judge(&image[..], k, s, frame);
    enact(image, k, s, act, frame)
}

// The reader's field went away and came back: always accepted; the record is kept.
pub fn field_reset(k: CardRecord) -> CardAnswer
    ensures { result ≡ card_reset_of k }
{
    let answer = card::field_reset();
    CardAnswer {
        answer,
        nak: 0,
        card: k,
    }
}

// The answer to any frame where there is no session to go by: for an image of so many bytes, which stays as it is.
pub fn no_session(k: CardRecord, bytes: usize) -> CardAnswer
    ensures { result ≡ card_no_session_of k bytes }
{
    let answer = if edition::is_wrong_size(k.edition, bytes) {
        card::refusal(11)
    } else {
        card::no_session(bytes)
    };
    CardAnswer {
        answer,
        nak: 0,
        card: k,
    }
}
