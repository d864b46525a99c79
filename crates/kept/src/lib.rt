// A card with its record and with the figures of its value blocks.
#![tactic(auto)]

ghost use Rattle.std.specs.Prelude.{◌≡◌, true, [], ◌∷◌, ◌++◌, length};
ghost use Rattle.judge.specs.First.{check, first, refuses};
ghost use Rattle.judge.specs.Checks.{frame_checks};
ghost use Rattle.judge.specs.Code.{refusal_number};
ghost use Rattle.edition.specs.Edition.{wrong_size};
ghost use Rattle.kept.specs.Kept.{kept_answer_of, kept_image_after, kept_reset_of, kept_no_session_of};

mod sealing;
mod settle;

use edition::CardRecord;
use either_card::CardAnswer;
use judge::Refusal;
pub use sealing::{SealedKeptAnswer, sealed_no_session, sealed_step};
use session::Session;
use tally::Figures;

// The answer with its record, and the figures afterwards.
#[derive(Clone, Copy)]
pub struct KeptAnswer<R = [u8; 16]> {
    pub answer: CardAnswer<R>,
    pub figures: Figures,
}

// The first of 11 and 12 that applies; where none does, the refusal that stands after them.
fn early_refusal(k: CardRecord, image: &[u8], s: Session, after: Refusal) -> Refusal
    ensures { first (check 11 (wrong_size k.edition (length image.now)) ∷ (frame_checks image.now s ++ (check (refusal_number after) true ∷ []))) ≡ refuses (refusal_number result) }
{
    if edition::is_wrong_size(k.edition, image.len()) {
        return Refusal::NoCard;
    }
    if layout::sectors_of(image.len()) == 0 {
        return Refusal::NoCard;
    }
    if session::is_coherent(image.len(), s) {
        return after;
    }
    Refusal::Incoherent
}

// Any image, any record, any figures, any session, any frame: the answer, and the image as it is afterwards.
// Record, figures and session are parameters of their own, and no struct, as in `either_card`.
pub fn step(image: &mut [u8], k: CardRecord, f: Figures, s: Session, frame: &[u8]) -> KeptAnswer
    ensures value { result ≡ kept_answer_of image.old k f s frame.now }
    ensures image_after { image.new ≡ kept_image_after image.old k f s frame.now }
{
    let act = if tally::in_range(f) {
        either_card::judge(&image[..], k, s, frame)
    } else {
        judge::refused(early_refusal(k, &image[..], s, Refusal::FiguresOutside))
    };
    let settled = settle::settled_by(&image[..], f, act, frame);
    let figures = settle::figures_by(settled, f);
    let last = settle::lastly(settled, act);
    let answer = either_card::enact(image, k, s, last, frame);
    KeptAnswer { answer, figures }
}

// The reader's field went away and came back: always accepted; record and figures are kept, whatever they are.
pub fn field_reset(k: CardRecord, f: Figures) -> KeptAnswer
    ensures { result ≡ kept_reset_of k f }
{
    let answer = either_card::field_reset(k);
    KeptAnswer { answer, figures: f }
}

// The answer to any frame where there is no session to go by: 11 and 12 come before 29.
pub fn no_session(k: CardRecord, f: Figures, bytes: usize) -> KeptAnswer
    ensures { result ≡ kept_no_session_of k f bytes }
{
    let answer = either_card::no_session(k, bytes);
    KeptAnswer { answer, figures: f }
}
