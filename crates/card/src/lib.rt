// The card: one frame, one answer.
#![tactic(auto)]

ghost use Rattle.std.specs.Prelude.{◌≡◌, ◌<◌};
ghost use Rattle.card.specs.Effects.{sign_code, packed_of};
ghost use Rattle.card.specs.Step.{answer_of, image_after, reset_of, no_session_of};

mod outcome;
mod trailer;

pub use outcome::{enact, refusal};
use session::Session;

// What goes on the air.
#[derive(Clone, Copy)]
pub enum Sign {
    Ack,
    Nak,
    Data,
    Nothing,
}

// A sign as a number, for those who keep answers as bytes. The numbers are those of the C interface, so each stands beside its sign.
pub fn sign_code(sign: Sign) -> u8
    ensures value { result ≡ sign_code sign }
    ensures upper_bound { result < 4 }
{
    match sign {
        Sign::Ack => 0,
        Sign::Nak => 1,
        Sign::Data => 2,
        Sign::Nothing => 3,
    }
}

// A number and a sign in one, for those who hand over a single number.
pub fn packed(number: u8, sign: Sign) -> u32
    ensures { result ≡ packed_of number sign }
{
    u32::from(number) + 256 * u32::from(sign_code(sign))
}

// The number (0 is accepted; the promises, demand 1 and the C interface are by it), the sign, the reply and the session afterwards. A bare frame's reply has sixteen bytes, that of a frame with its checksum eighteen.
#[derive(Clone, Copy)]
pub struct Answer<R = [u8; 16]> {
    pub number: u8,
    pub sign: Sign,
    pub reply: R,
    pub session: Session,
}

// Any image, any session, any frame: the answer, and the image as it is afterwards.
pub fn step(image: &mut [u8], s: Session, frame: &[u8]) -> Answer
    ensures value { result ≡ answer_of image.old s frame.now }
    ensures image_after { image.new ≡ image_after image.old s frame.now }
{
    let act = judge::judge(&image[..], s, frame);
    enact(image, s, act, frame)
}

// The reader's field went away and came back: always accepted, and no image is needed.
pub fn field_reset() -> Answer
    ensures { result ≡ reset_of }
{
    let session = session::fresh();
    Answer {
        number: 0,
        sign: Sign::Nothing,
        reply: [0u8; 16],
        session,
    }
}

// The answer to any frame where there is no session to go by: for an image of so many bytes, which stays as it is.
pub fn no_session(bytes: usize) -> Answer
    ensures { result ≡ no_session_of bytes }
{
    if layout::sectors_of(bytes) == 0 {
        refusal(11)
    } else {
        refusal(12)
    }
}
