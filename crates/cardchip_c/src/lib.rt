// The calls of `cardchip`, under the names by which C and Rust link them.
#![tactic(auto)]

ghost use Rattle.std.specs.Prelude.{◌≡◌};
ghost use Rattle.record.specs.Record.{record_of};
ghost use Rattle.crossing.specs.Crossing.{packed_with};
ghost use Rattle.cardchip.specs.CardChip.{card_sealed_of, card_sealed_image};

// One frame with its checksum. The two records are replaced by the next ones, and the reply is filled.
#[unsafe(no_mangle)]
pub extern "C" fn tirlwheel_card_sealed_frame(
    image: &mut [u8],
    card: &mut [u8; 4],
    session: &mut [u8; 12],
    frame: &[u8],
    reply: &mut [u8; 18],
) -> u32
    ensures value { result ≡ packed_with (card_sealed_of image.old card.old session.old frame.now).answer.number (card_sealed_of image.old card.old session.old frame.now).answer.sign (card_sealed_of image.old card.old session.old frame.now).nak }
    ensures card_after { card.new ≡ (card_sealed_of image.old card.old session.old frame.now).card }
    ensures session_after { session.new ≡ record_of (card_sealed_of image.old card.old session.old frame.now).answer.session }
    ensures reply_after { reply.new ≡ (card_sealed_of image.old card.old session.old frame.now).answer.reply }
    ensures image_after { image.new ≡ card_sealed_image image.old card.old session.old frame.now }
{
    cardchip::tirlwheel_card_sealed_frame(image, card, session, frame, reply)
}
