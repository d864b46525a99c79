// The calls of `edge`, under the names by which C and Rust link them.
#![tactic(auto)]

ghost use Rattle.std.specs.Prelude.{◌≡◌};
ghost use Rattle.card.specs.Effects.{packed_of};
ghost use Rattle.record.specs.Record.{record_of};
ghost use Rattle.edge.specs.Edge.{frame_answer, frame_image, version_of};
ghost use Rattle.card.specs.Step.{reset_of};

// One frame. The session's record is replaced by the next one, and the reply is filled.
#[unsafe(no_mangle)]
pub extern "C" fn tirlwheel_frame(
    image: &mut [u8],
    session: &mut [u8; 12],
    frame: &[u8],
    reply: &mut [u8; 16],
) -> u32
    ensures value { result ≡ packed_of (frame_answer image.old session.old frame.now).number (frame_answer image.old session.old frame.now).sign }
    ensures session_after { session.new ≡ record_of (frame_answer image.old session.old frame.now).session }
    ensures reply_after { reply.new ≡ (frame_answer image.old session.old frame.now).reply }
    ensures image_after { image.new ≡ frame_image image.old session.old frame.now }
{
    edge::tirlwheel_frame(image, session, frame, reply)
}

// The field reset, for any twelve bytes.
#[unsafe(no_mangle)]
pub extern "C" fn tirlwheel_field_reset(session: &mut [u8; 12], reply: &mut [u8; 16]) -> u32
    ensures value { result ≡ packed_of reset_of.number reset_of.sign }
    ensures session_after { session.new ≡ record_of reset_of.session }
    ensures reply_after { reply.new ≡ reset_of.reply }
{
    edge::tirlwheel_field_reset(session, reply)
}

// Which boundary this is.
#[unsafe(no_mangle)]
pub extern "C" fn tirlwheel_version() -> u32
    ensures { result ≡ version_of }
{
    edge::tirlwheel_version()
}
