// The calls of `keptchip`, under the names by which C and Rust link them.
#![tactic(auto)]

ghost use Rattle.std.specs.Prelude.{◌≡◌};
ghost use Rattle.record.specs.Record.{record_of};
ghost use Rattle.crossing.specs.Crossing.{packed_with};
ghost use Rattle.keptchip.specs.KeptChip.{kept_sealed_of, kept_sealed_image};

// One frame with its checksum. The two records are replaced by the next ones, and the reply is filled.
#[unsafe(no_mangle)]
pub extern "C" fn tirlwheel_kept_sealed_frame(
    image: &mut [u8],
    card: &mut [u8; 4],
    figures: &mut [u8; 16],
    session: &mut [u8; 12],
    frame: &[u8],
    reply: &mut [u8; 18],
) -> u32
    ensures value { result ≡ packed_with (kept_sealed_of image.old card.old figures.old session.old frame.now).answer.number (kept_sealed_of image.old card.old figures.old session.old frame.now).answer.sign (kept_sealed_of image.old card.old figures.old session.old frame.now).nak }
    ensures card_after { card.new ≡ (kept_sealed_of image.old card.old figures.old session.old frame.now).card }
    ensures figures_after { figures.new ≡ (kept_sealed_of image.old card.old figures.old session.old frame.now).figures }
    ensures session_after { session.new ≡ record_of (kept_sealed_of image.old card.old figures.old session.old frame.now).answer.session }
    ensures reply_after { reply.new ≡ (kept_sealed_of image.old card.old figures.old session.old frame.now).answer.reply }
    ensures image_after { image.new ≡ kept_sealed_image image.old card.old figures.old session.old frame.now }
{
    keptchip::tirlwheel_kept_sealed_frame(image, card, figures, session, frame, reply)
}
