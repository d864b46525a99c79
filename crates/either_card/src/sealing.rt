// The same for frames with their checksum.
ghost use Rattle.std.specs.Prelude.{◌≡◌, true, cond, [], ◌∷◌, ◌++◌, length};
ghost use Rattle.judge.specs.First.{check, first, refuses};
ghost use Rattle.judge.specs.Checks.{frame_checks};
ghost use Rattle.judge.specs.Code.{refusal_number};
ghost use Rattle.edition.specs.Edition.{wrong_size};
ghost use Rattle.either_card.specs.Either.{sealed_card_of, sealed_card_answer_of, sealed_card_image_after, card_no_session_of};

use crate::{CardAnswer, no_session, refusal, step};
use edition::CardRecord;
use judge::Refusal;
use session::Session;

// An answer whose reply has its checksum, or room for it; the value of its NAK and the record afterwards.
pub type SealedCardAnswer = CardAnswer<[u8; 18]>;

pub fn sealed_card(a: CardAnswer) -> SealedCardAnswer
    ensures { result ≡ sealed_card_of a }
{
    CardAnswer {
        answer: sealed::sealed(a.answer),
        nak: a.nak,
        card: a.card,
    }
}

// The refusal of a frame whose checksum is wrong: an EV1's 11 comes before the card's own.
fn first_refusal(k: CardRecord, image: &[u8], s: Session) -> Refusal
    ensures { cond (wrong_size k.edition (length image.now)) (refuses 11) (first (frame_checks image.now s ++ (check 14 true ∷ []))) ≡ refuses (refusal_number result) }
{
    if edition::is_wrong_size(k.edition, image.len()) {
        return Refusal::NoCard;
    }
    sealed::first_refusal(image, s)
}

// Any image, any record, any session, any frame: the answer, and the image as it is afterwards.
#[tactic(auto, using(crate::proofs::Sealed::by_inner), unfolding(sealed::specs::Sealed::inner_of))]
pub fn sealed_step(image: &mut [u8], k: CardRecord, s: Session, frame: &[u8]) -> SealedCardAnswer
    ensures value { result ≡ sealed_card_answer_of image.old k s frame.now }
    ensures image_after { image.new ≡ sealed_card_image_after image.old k s frame.now }
{
    match sealed::inner(frame) {
        Some(bare) => sealed_card(step(image, k, s, bare)),
        None => sealed_card(refusal(k, s, first_refusal(k, &image[..], s).number())),
    }
}

// The answer to any frame where there is no session to go by: number 14 is never looked at.
pub fn sealed_no_session(k: CardRecord, bytes: usize) -> SealedCardAnswer
    ensures { result ≡ sealed_card_of (card_no_session_of k bytes) }
{
    sealed_card(no_session(k, bytes))
}
