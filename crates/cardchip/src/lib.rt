// The boundary for a card with its record, to a board that hands frames over as its reader chip does. The field reset is `cardedge`'s.
#![tactic(auto)]

ghost use Rattle.std.specs.Prelude.{◌≡◌};
ghost use Rattle.record.specs.Record.{record_of, session_from};
ghost use Rattle.crossing.specs.Crossing.{packed_with};
ghost use Rattle.either_card.specs.Either.{sealed_card_answer_of, sealed_card_image_after};
ghost use Rattle.cardchip.specs.CardChip.{card_sealed_of, card_sealed_image};

use edition::CardRecord;
use either_card::SealedCardAnswer;

// The answer for the session that twelve bytes hold, or for none. Every boundary has its own: each calls another step, and two closures could not both hold the image.
fn answer(image: &mut [u8], k: CardRecord, session: [u8; 12], frame: &[u8]) -> SealedCardAnswer
    ensures value { result ≡ sealed_card_answer_of image.old k (session_from session) frame.now }
    ensures image_after { image.new ≡ sealed_card_image_after image.old k (session_from session) frame.now }
{
    match record::decode(session) {
        Some(s) => either_card::sealed_step(image, k, s, frame),
        None => either_card::sealed_no_session(k, image.len()),
    }
}

// One frame with its checksum. The two records are replaced by the next ones, and the reply is filled.
#[tactic(auto, unfolding(crate::specs::CardChip::card_sealed_of, crate::specs::CardChip::card_sealed_image))]
pub fn tirlwheel_card_sealed_frame(
    image: &mut [u8],
    card: &mut [u8; 4],
    session: &mut [u8; 12],
    frame: &[u8],
    reply: &mut [u8; 18],
) -> u32
    ensures value { result ≡ packed_with (card_sealed_of image.old card.old session.old frame.now).answer.number (card_sealed_of image.old card.old session.old frame.now).answer.sign (card_sealed_of image.old card.old session.old frame.now).nak }
    ensures card_after { card.new ≡ (card_sealed_of image.old card.old session.old frame.now).card }
    ensures session_after { session.new ≡ record_of (card_sealed_of image.old card.old session.old frame.now).answer.session }
    ensures reply_after { reply.new ≡ (card_sealed_of image.old card.old session.old frame.now).answer.reply }
    ensures image_after { image.new ≡ card_sealed_image image.old card.old session.old frame.now }
{
    match edition::decode(*card) {
        Some(k) => {
            let a = answer(image, k, *session, frame);
            *card = edition::encode(a.card);
            crossing::give(a.answer, a.nak, session, reply)
        }
        None => crossing::give(sealed::sealed(card::refusal(11)), 0, session, reply),
    }
}
