// The boundary for a card with its record and its figures, to a board that hands frames over as its reader chip does. The field reset is `keptedge`'s.
#![tactic(auto)]

ghost use Rattle.std.specs.Prelude.{◌≡◌};
ghost use Rattle.record.specs.Record.{record_of, session_from};
ghost use Rattle.crossing.specs.Crossing.{packed_with};
ghost use Rattle.kept.specs.Kept.{sealed_kept_answer_of, sealed_kept_image_after};
ghost use Rattle.keptchip.specs.KeptChip.{kept_sealed_of, kept_sealed_image};

use edition::CardRecord;
use kept::SealedKeptAnswer;
use tally::Figures;

// The answer for the session that twelve bytes hold, or for none. Every boundary has its own: each calls another step, and two closures could not both hold the image.
fn answer(
    image: &mut [u8],
    k: CardRecord,
    f: Figures,
    session: [u8; 12],
    frame: &[u8],
) -> SealedKeptAnswer
    ensures value { result ≡ sealed_kept_answer_of image.old k f (session_from session) frame.now }
    ensures image_after { image.new ≡ sealed_kept_image_after image.old k f (session_from session) frame.now }
{
    match record::decode(session) {
        Some(s) => kept::sealed_step(image, k, f, s, frame),
        None => kept::sealed_no_session(k, f, image.len()),
    }
}

// One frame with its checksum. The two records are replaced by the next ones, and the reply is filled.
#[tactic(auto, unfolding(crate::specs::KeptChip::kept_sealed_of, crate::specs::KeptChip::kept_sealed_image))]
pub fn tirlwheel_kept_sealed_frame(
    image: &mut [u8],
    card: &mut [u8; 4],
    figures: &mut [u8; 16],
    session: &mut [u8; 12],
    frame: &[u8],
    reply: &mut [u8; 18],
) -> u32
    ensures value { result ≡ packed_with (kept_sealed_of image.old card.old figures.old session.old frame.now).answer.number (kept_sealed_of image.old card.old figures.old session.old frame.now).answer.sign (kept_sealed_of image.old card.old figures.old session.old frame.now).nak }
    ensures card_after { card.new ≡ (kept_sealed_of image.old card.old figures.old session.old frame.now).card }
    ensures figures_after { figures.new ≡ (kept_sealed_of image.old card.old figures.old session.old frame.now).figures }
    ensures session_after { session.new ≡ record_of (kept_sealed_of image.old card.old figures.old session.old frame.now).answer.session }
    ensures reply_after { reply.new ≡ (kept_sealed_of image.old card.old figures.old session.old frame.now).answer.reply }
    ensures image_after { image.new ≡ kept_sealed_image image.old card.old figures.old session.old frame.now }
{
    match edition::decode(*card) {
        Some(k) => {
            let f = tally::decode(*figures);
            let a = answer(image, k, f, *session, frame);
            let carded = a.answer;
            *card = edition::encode(carded.card);
            *figures = tally::encode(a.figures);
            crossing::give(carded.answer, carded.nak, session, reply)
        }
        None => crossing::give(sealed::sealed(card::refusal(11)), 0, session, reply),
    }
}
