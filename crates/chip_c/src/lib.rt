// The calls of `chip`, under the names by which C and Rust link them.
#![tactic(auto)]

ghost use Rattle.std.specs.Prelude.{◌≡◌};
ghost use Rattle.card.specs.Effects.{packed_of};
ghost use Rattle.record.specs.Record.{record_of};
ghost use Rattle.chip.specs.Chip.{chip_answer, chip_image};

// One frame with its checksum. The session's record is replaced by the next one, and the reply is filled. A field reset has neither frame nor checksum: it is `edge`'s.
#[unsafe(no_mangle)]
pub extern "C" fn tirlwheel_sealed_frame(
    image: &mut [u8],
    session: &mut [u8; 12],
    frame: &[u8],
    reply: &mut [u8; 18],
) -> u32
    ensures value { result ≡ packed_of (chip_answer image.old session.old frame.now).number (chip_answer image.old session.old frame.now).sign }
    ensures session_after { session.new ≡ record_of (chip_answer image.old session.old frame.now).session }
    ensures reply_after { reply.new ≡ (chip_answer image.old session.old frame.now).reply }
    ensures image_after { image.new ≡ chip_image image.old session.old frame.now }
{
    chip::tirlwheel_sealed_frame(image, session, frame, reply)
}
