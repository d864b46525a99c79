// The boundary for a board that hands frames over as its reader chip does, with their checksum. It is a library of its own: so each library calls the card in one place, and the compiler builds the card into that call.
#![tactic(auto)]

ghost use Rattle.std.specs.Prelude.{◌≡◌};
ghost use Rattle.card.specs.Effects.{packed_of};
ghost use Rattle.record.specs.Record.{record_of};
ghost use Rattle.chip.specs.Chip.{chip_answer, chip_image};

// One frame with its checksum. The session's record is replaced by the next one, and the reply is filled. A field reset has neither frame nor checksum: it is `edge`'s.
pub fn tirlwheel_sealed_frame(
    image: &mut [u8],
    session: &mut [u8; 12],
    frame: &[u8],
    reply: &mut [u8; 18],
) -> u32
    ensures value { result ≡ packed_of (chip_answer image.old session.old frame.now).number (chip_answer image.old session.old frame.now).sign }
    ensures session_after { session.new ≡ record_of (chip_answer image.old session.old frame.now).session }
    ensures reply_after { reply.new ≡ (chip_answer image.old session.old frame.now).reply }
    ensures image_after { image.new ≡ chip_image image.old session.old frame.now }
{
    let a = match record::decode(*session) {
        Some(s) => sealed::step(image, s, frame),
        None => sealed::no_session(image.len()),
    };
    crossing::give(a, 0, session, reply)
}
