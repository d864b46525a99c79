// The boundary to C and Rust for a card with its record: four lent bytes beside the image.
#![tactic(auto)]

ghost use Rattle.std.specs.Prelude.{◌≡◌};
ghost use Rattle.card.specs.Step.{reset_of};
ghost use Rattle.record.specs.Record.{record_of, session_from};
ghost use Rattle.crossing.specs.Crossing.{packed_with};
ghost use Rattle.either_card.specs.Either.{card_answer_of, card_image_after};
ghost use Rattle.cardedge.specs.CardEdge.{card_frame_of, card_frame_image};

use edition::CardRecord;
use either_card::CardAnswer;

// The answer for the session that twelve bytes hold, or for none. Every boundary has its own: each calls another step, and two closures could not both hold the image.
fn answer(image: &mut [u8], k: CardRecord, session: [u8; 12], frame: &[u8]) -> CardAnswer
    ensures value { result ≡ card_answer_of image.old k (session_from session) frame.now }
    ensures image_after { image.new ≡ card_image_after image.old k (session_from session) frame.now }
{
    match record::decode(session) {
        Some(s) => either_card::step(image, k, s, frame),
        None => either_card::no_session(k, image.len()),
    }
}

// One frame. The two records are replaced by the next ones, and the reply is filled.
#[tactic(auto, unfolding(crate::specs::CardEdge::card_frame_of, crate::specs::CardEdge::card_frame_image))]
pub fn tirlwheel_card_frame(
    image: &mut [u8],
    card: &mut [u8; 4],
    session: &mut [u8; 12],
    frame: &[u8],
    reply: &mut [u8; 16],
) -> u32
    ensures value { result ≡ packed_with (card_frame_of image.old card.old session.old frame.now).answer.number (card_frame_of image.old card.old session.old frame.now).answer.sign (card_frame_of image.old card.old session.old frame.now).nak }
    ensures card_after { card.new ≡ (card_frame_of image.old card.old session.old frame.now).card }
    ensures session_after { session.new ≡ record_of (card_frame_of image.old card.old session.old frame.now).answer.session }
    ensures reply_after { reply.new ≡ (card_frame_of image.old card.old session.old frame.now).answer.reply }
    ensures image_after { image.new ≡ card_frame_image image.old card.old session.old frame.now }
{
    match edition::decode(*card) {
        Some(k) => {
            let a = answer(image, k, *session, frame);
            *card = edition::encode(a.card);
            crossing::give(a.answer, a.nak, session, reply)
        }
        None => crossing::give(card::refusal(11), 0, session, reply),
    }
}

// The field reset, for any bytes. The card's record is left as it is.
pub fn tirlwheel_card_reset(_card: &[u8; 4], session: &mut [u8; 12], reply: &mut [u8; 16]) -> u32
    ensures value { result ≡ packed_with reset_of.number reset_of.sign 0 }
    ensures session_after { session.new ≡ record_of reset_of.session }
    ensures reply_after { reply.new ≡ reset_of.reply }
{
    crossing::give(card::field_reset(), 0, session, reply)
}
