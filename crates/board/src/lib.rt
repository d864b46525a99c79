// The board's calls: it keeps one session for its reader and lends it to each of them.
#![tactic(auto)]

ghost use Rattle.std.specs.Prelude.{◌≡◌};
ghost use Rattle.card.specs.Step.{answer_of, image_after, reset_of};
ghost use Rattle.either_card.specs.Either.{card_answer_of, card_image_after, card_reset_of};

use card::Answer;
use edition::CardRecord;
use either_card::CardAnswer;
use session::Session;

// One frame. The session is afterwards the one that the answer carries.
pub fn frame(image: &mut [u8], session: &mut Session, frame: &[u8]) -> Answer
    ensures { (result ≡ answer_of image.old session.old frame.now)
        × (session.new ≡ (answer_of image.old session.old frame.now).session)
        × (image.new ≡ image_after image.old session.old frame.now) }
{
    let a = card::step(image, *session, frame);
    *session = a.session;
    a
}

// The field reset, for any session.
pub fn field_reset(session: &mut Session) -> Answer
    ensures { (result ≡ reset_of) × (session.new ≡ reset_of.session) }
{
    let a = card::field_reset();
    *session = a.session;
    a
}

// One frame on a card with its record, which comes back in the answer. The session is afterwards the one that the answer carries.
pub fn card_frame(
    image: &mut [u8],
    card: CardRecord,
    session: &mut Session,
    frame: &[u8],
) -> CardAnswer
    ensures { (result ≡ card_answer_of image.old card session.old frame.now)
        × (session.new ≡ (card_answer_of image.old card session.old frame.now).answer.session)
        × (image.new ≡ card_image_after image.old card session.old frame.now) }
{
    let a = either_card::step(image, card, *session, frame);
    *session = a.answer.session;
    a
}

// The field reset, for any session; the record is kept.
pub fn card_reset(card: CardRecord, session: &mut Session) -> CardAnswer
    ensures { (result ≡ card_reset_of card) × (session.new ≡ (card_reset_of card).answer.session) }
{
    let a = either_card::field_reset(card);
    *session = a.answer.session;
    a
}
