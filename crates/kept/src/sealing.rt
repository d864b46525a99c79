// The same for frames with their checksum.
ghost use Rattle.std.specs.Prelude.{◌≡◌};
ghost use Rattle.judge.specs.Code.{refusal_number};
ghost use Rattle.kept.specs.Code.{refused_kept, after12};
ghost use Rattle.kept.specs.Kept.{sealed_kept_of, sealed_kept_answer_of, sealed_kept_image_after, kept_no_session_of};

use crate::{KeptAnswer, early_refusal, no_session, step};
use edition::CardRecord;
use judge::Refusal;
use session::Session;
use tally::Figures;

// An answer whose reply has its checksum, or room for it, with its record, and the figures afterwards.
pub type SealedKeptAnswer = KeptAnswer<[u8; 18]>;

fn sealed_kept(a: KeptAnswer) -> SealedKeptAnswer
    ensures { result ≡ sealed_kept_of a }
{
    KeptAnswer {
        answer: either_card::sealed_card(a.answer),
        figures: a.figures,
    }
}

// A refusal gives the figures back as they came.
fn refused(k: CardRecord, f: Figures, s: Session, r: Refusal) -> KeptAnswer
    ensures { result ≡ refused_kept k f s (refusal_number r) }
{
    let answer = either_card::refusal(k, s, r.number());
    KeptAnswer { answer, figures: f }
}

// 29 stands before 14.
fn after_12(f: Figures) -> Refusal
    ensures { refusal_number result ≡ after12 f }
{
    if tally::in_range(f) {
        return Refusal::WrongChecksum;
    }
    Refusal::FiguresOutside
}

// Any image, any record, any figures, any session, any frame: the answer, and the image as it is afterwards.
#[tactic(auto, using(crate::proofs::Laws::by_inner), unfolding(sealed::specs::Sealed::inner_of))]
pub fn sealed_step(
    image: &mut [u8],
    k: CardRecord,
    f: Figures,
    s: Session,
    frame: &[u8],
) -> SealedKeptAnswer
    ensures value { result ≡ sealed_kept_answer_of image.old k f s frame.now }
    ensures image_after { image.new ≡ sealed_kept_image_after image.old k f s frame.now }
{
    match sealed::inner(frame) {
        Some(bare) => sealed_kept(step(image, k, f, s, bare)),
        None => sealed_kept(refused(k, f, s, early_refusal(k, &image[..], s, after_12(f)))),
    }
}

// The answer to any frame where there is no session to go by.
pub fn sealed_no_session(k: CardRecord, f: Figures, bytes: usize) -> SealedKeptAnswer
    ensures { result ≡ sealed_kept_of (kept_no_session_of k f bytes) }
{
    sealed_kept(no_session(k, f, bytes))
}
