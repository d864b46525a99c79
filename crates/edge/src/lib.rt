// The boundary to C and Rust: numbers, lent bytes, and the session as its record of twelve bytes.
#![tactic(auto)]

ghost use Rattle.std.specs.Prelude.{◌≡◌};
ghost use Rattle.card.specs.Effects.{packed_of};
ghost use Rattle.card.specs.Step.{reset_of};
ghost use Rattle.record.specs.Record.{record_of};
ghost use Rattle.edge.specs.Edge.{frame_answer, frame_image, version_of};

const VERSION: u32 = 4;

// One frame. The session's record is replaced by the next one, and the reply is filled.
pub fn tirlwheel_frame(
    image: &mut [u8],
    session: &mut [u8; 12],
    frame: &[u8],
    reply: &mut [u8; 16],
) -> u32
    ensures value { result ≡ packed_of (frame_answer image.old session.old frame.now).number (frame_answer image.old session.old frame.now).sign }
    ensures session_after { session.new ≡ record_of (frame_answer image.old session.old frame.now).session }
    ensures reply_after { reply.new ≡ (frame_answer image.old session.old frame.now).reply }
    ensures image_after { image.new ≡ frame_image image.old session.old frame.now }
{
    let a = match record::decode(*session) {
        Some(s) => card::step(image, s, frame),
        None => card::no_session(image.len()),
    };
    crossing::give(a, 0, session, reply)
}

// The field reset, for any twelve bytes.
#[tactic(auto, using(crossing::proofs::Laws::no_value))]
pub fn tirlwheel_field_reset(session: &mut [u8; 12], reply: &mut [u8; 16]) -> u32
    ensures value { result ≡ packed_of reset_of.number reset_of.sign }
    ensures session_after { session.new ≡ record_of reset_of.session }
    ensures reply_after { reply.new ≡ reset_of.reply }
{
    crossing::give(card::field_reset(), 0, session, reply)
}

// Which boundary this is.
pub fn tirlwheel_version() -> u32
    ensures { result ≡ version_of }
{
    VERSION
}
