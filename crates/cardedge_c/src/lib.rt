// The calls of `cardedge`, under the names by which C and Rust link them.
#![tactic(auto)]

ghost use Rattle.std.specs.Prelude.{◌≡◌};
ghost use Rattle.record.specs.Record.{record_of};
ghost use Rattle.crossing.specs.Crossing.{packed_with};
ghost use Rattle.cardedge.specs.CardEdge.{card_frame_of, card_frame_image};
ghost use Rattle.card.specs.Step.{reset_of};

// One frame. The two records are replaced by the next ones, and the reply is filled.
#[unsafe(no_mangle)]
pub extern "C" fn tirlwheel_card_frame(
    image: &mut [u8],
    card: &mut [u8; 4],
    session: &mut [u8; 12],
    frame: &[u8],
    reply: &mut [u8; 16],
) -> u32
    ensures value { result ≡ packed_with (card_frame_of image.old card.old session.old frame.now).answer.number (card_frame_of image.old card.old session.old frame.now).answer.sign (card_frame_of image.old card.old session.old frame.now).nak }
    ensures card_after { card.new ≡ (card_frame_of image.old card.old session.old frame.now).card }
    ensures session_after { session.new ≡ record_of (card_frame_of image.old card.old session.old frame.now).answer.session }
    ensures reply_after { reply.new ≡ (card_frame_of image.old card.old session.old frame.now).answer.reply }
    ensures image_after { image.new ≡ card_frame_image image.old card.old session.old frame.now }
{
    cardedge::tirlwheel_card_frame(image, card, session, frame, reply)
}

// The field reset, for any bytes. The card's record is left as it is.
#[unsafe(no_mangle)]
pub extern "C" fn tirlwheel_card_reset(
    _card: &[u8; 4],
    session: &mut [u8; 12],
    reply: &mut [u8; 16],
) -> u32
    ensures value { result ≡ packed_with reset_of.number reset_of.sign 0 }
    ensures session_after { session.new ≡ record_of reset_of.session }
    ensures reply_after { reply.new ≡ reset_of.reply }
{
    cardedge::tirlwheel_card_reset(_card, session, reply)
}
