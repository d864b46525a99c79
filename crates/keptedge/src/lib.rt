// The boundary to C and Rust for a card with its record and its figures: four and sixteen lent bytes beside the image.
#![tactic(auto)]

ghost use Rattle.std.specs.Prelude.{◌≡◌};
ghost use Rattle.card.specs.Step.{reset_of};
ghost use Rattle.record.specs.Record.{record_of, session_from};
ghost use Rattle.crossing.specs.Crossing.{packed_with};
ghost use Rattle.kept.specs.Kept.{kept_answer_of, kept_image_after};
ghost use Rattle.keptedge.specs.KeptEdge.{kept_frame_of, kept_frame_image};

use edition::CardRecord;
use kept::KeptAnswer;
use tally::Figures;

// The answer for the session that twelve bytes hold, or for none. Every boundary has its own: each calls another step, and two closures could not both hold the image.
fn answer(
    image: &mut [u8],
    k: CardRecord,
    f: Figures,
    session: [u8; 12],
    frame: &[u8],
) -> KeptAnswer
    ensures value { result ≡ kept_answer_of image.old k f (session_from session) frame.now }
    ensures image_after { image.new ≡ kept_image_after image.old k f (session_from session) frame.now }
{
    match record::decode(session) {
        Some(s) => kept::step(image, k, f, s, frame),
        None => kept::no_session(k, f, image.len()),
    }
}

// One frame. The two records and the figures are replaced by the next ones, and the reply is filled.
#[tactic(auto, unfolding(crate::specs::KeptEdge::kept_frame_of, crate::specs::KeptEdge::kept_frame_image))]
pub fn tirlwheel_kept_frame(
    image: &mut [u8],
    card: &mut [u8; 4],
    figures: &mut [u8; 16],
    session: &mut [u8; 12],
    frame: &[u8],
    reply: &mut [u8; 16],
) -> u32
    ensures value { result ≡ packed_with (kept_frame_of image.old card.old figures.old session.old frame.now).answer.number (kept_frame_of image.old card.old figures.old session.old frame.now).answer.sign (kept_frame_of image.old card.old figures.old session.old frame.now).nak }
    ensures card_after { card.new ≡ (kept_frame_of image.old card.old figures.old session.old frame.now).card }
    ensures figures_after { figures.new ≡ (kept_frame_of image.old card.old figures.old session.old frame.now).figures }
    ensures session_after { session.new ≡ record_of (kept_frame_of image.old card.old figures.old session.old frame.now).answer.session }
    ensures reply_after { reply.new ≡ (kept_frame_of image.old card.old figures.old session.old frame.now).answer.reply }
    ensures image_after { image.new ≡ kept_frame_image image.old card.old figures.old session.old frame.now }
{
    match edition::decode(*card) {
        Some(k) => {
            let f = tally::decode(*figures);
            let a = answer(image, k, f, *session, frame);
            let carded = a.answer;
            *card = edition::encode(carded.card);
            *figures = tally::encode(a.figures);
            crossing::give(carded.answer, carded.nak, session, reply)
        }
        None => crossing::give(card::refusal(11), 0, session, reply),
    }
}

// The field reset, for any bytes. The card's record and the figures are left as they are.
pub fn tirlwheel_kept_reset(
    _card: &[u8; 4],
    _figures: &[u8; 16],
    session: &mut [u8; 12],
    reply: &mut [u8; 16],
) -> u32
    ensures value { result ≡ packed_with reset_of.number reset_of.sign 0 }
    ensures session_after { session.new ≡ record_of reset_of.session }
    ensures reply_after { reply.new ≡ reset_of.reply }
{
    crossing::give(card::field_reset(), 0, session, reply)
}
