// The calls of `keptedge`, under the names by which C and Rust link them.
#![tactic(auto)]

ghost use Rattle.std.specs.Prelude.{◌≡◌};
ghost use Rattle.record.specs.Record.{record_of};
ghost use Rattle.crossing.specs.Crossing.{packed_with};
ghost use Rattle.keptedge.specs.KeptEdge.{kept_frame_of, kept_frame_image};
ghost use Rattle.card.specs.Step.{reset_of};

// One frame. The two records and the figures are replaced by the next ones, and the reply is filled.
#[unsafe(no_mangle)]
pub extern "C" fn tirlwheel_kept_frame(
    image: &mut [u8],
    card: &mut [u8; 4],
    figures: &mut [u8; 16],
    session: &mut [u8; 12],
    frame: &[u8],
    reply: &mut [u8; 16],
) -> u32
    ensures value { result ≡ packed_with (kept_frame_of image.old card.old figures.old session.old frame.now).answer.number (kept_frame_of image.old card.old figures.old session.old frame.now).answer.sign (kept_frame_of image.old card.old figures.old session.old frame.now).nak }
    ensures card_after { card.new ≡ (kept_frame_of image.old card.old figures.old session.old frame.now).card }
    ensures figures_after { figures.new ≡ (kept_frame_of image.old card.old figures.old session.old frame.now).figures }
    ensures session_after { session.new ≡ record_of (kept_frame_of image.old card.old figures.old session.old frame.now).answer.session }
    ensures reply_after { reply.new ≡ (kept_frame_of image.old card.old figures.old session.old frame.now).answer.reply }
    ensures image_after { image.new ≡ kept_frame_image image.old card.old figures.old session.old frame.now }
{
    keptedge::tirlwheel_kept_frame(image, card, figures, session, frame, reply)
}

// The field reset, for any bytes. The card's record and the figures are left as they are.
#[unsafe(no_mangle)]
pub extern "C" fn tirlwheel_kept_reset(
    _card: &[u8; 4],
    _figures: &[u8; 16],
    session: &mut [u8; 12],
    reply: &mut [u8; 16],
) -> u32
    ensures value { result ≡ packed_with reset_of.number reset_of.sign 0 }
    ensures session_after { session.new ≡ record_of reset_of.session }
    ensures reply_after { reply.new ≡ reset_of.reply }
{
    keptedge::tirlwheel_kept_reset(_card, _figures, session, reply)
}
