// Frames as the reader chip hands them over: the bytes of a bare frame, then their checksum. A Read's reply goes back in the same way.
#![tactic(auto)]

ghost use Rattle.std.specs.Prelude.{◌≡◌, not, true, false, [], ◌∷◌, ◌++◌, MatchOption};
ghost use Rattle.judge.specs.First.{check, first, refuses};
ghost use Rattle.judge.specs.Checks.{frame_checks};
ghost use Rattle.judge.specs.Code.{refusal_number};
ghost use Rattle.checksum.specs.Checksum.{crc_of, two_of};
ghost use Rattle.sealed.specs.Sealed.{unsealed, inner_of, sealed_reply, sealed_of, sealed_answer_of, sealed_image_after, sealed_no_session_of};

use card::{Answer, Sign};
use judge::Refusal;
use session::Session;

// An answer whose reply has its checksum, or room for it.
pub type SealedAnswer = Answer<[u8; 18]>;

// Does the frame pass 14?
#[tactic(auto, unfolding(crate::specs::Sealed::unsealed, crate::specs::Sealed::inner_of, crate::specs::Sealed::seal_in))]
pub fn is_sealed(frame: &[u8]) -> bool
    ensures { result ≡ not (unsealed frame.now) }
{
    if frame.len() < 3 {
        return false;
    }
    let at = frame.len() - 2;
    let seal = checksum::two(checksum::crc_a(&frame[..at]));
    frame[at..].first_chunk() == Some(&seal)
}

// The frame without its checksum; nothing where it does not pass 14.
pub fn inner(frame: &[u8]) -> Option<&[u8]>
    ensures { MatchOption result (unsealed frame.now ≡ true) (λ bare. (unsealed frame.now ≡ false) × (bare.now ≡ inner_of frame.now)) }
{
    if is_sealed(frame) {
        let end = frame.len() - 2;
        return Some(&frame[..end]);
    }
    None
}

// The refusal of a frame that does not pass 14: 11 and 12 come first.
pub fn first_refusal(image: &[u8], s: Session) -> Refusal
    ensures { first (frame_checks image.now s ++ (check 14 true ∷ [])) ≡ refuses (refusal_number result) }
{
    if layout::sectors_of(image.len()) == 0 {
        return Refusal::NoCard;
    }
    if session::is_coherent(image.len(), s) {
        return Refusal::WrongChecksum;
    }
    Refusal::Incoherent
}

// Sixteen bytes and their checksum.
fn with_seal(reply: [u8; 16]) -> [u8; 18]
    ensures { result ≡ reply ++ two_of (crc_of reply) }
{
    let seal = checksum::two(checksum::crc_a(&reply[..]));
    let mut bytes = [0u8; 18];
    bytes[..16].copy_from_slice(&reply);
    bytes[16] = seal[0];
    bytes[17] = seal[1];
    bytes
}

fn reply_of(sign: Sign, reply: [u8; 16]) -> [u8; 18]
    ensures { result ≡ sealed_reply sign reply }
{
    match sign {
        Sign::Data => with_seal(reply),
        _ => [0u8; 18],
    }
}

pub fn sealed(a: Answer) -> SealedAnswer
    ensures { result ≡ sealed_of a }
{
    Answer {
        number: a.number,
        sign: a.sign,
        reply: reply_of(a.sign, a.reply),
        session: a.session,
    }
}

// Any image, any session, any frame: the answer, and the image as it is afterwards.
pub fn step(image: &mut [u8], s: Session, frame: &[u8]) -> SealedAnswer
    ensures value { result ≡ sealed_answer_of image.old s frame.now }
    ensures image_after { image.new ≡ sealed_image_after image.old s frame.now }
{
    let a = match inner(frame) {
        Some(bare) => card::step(image, s, bare),
        None => card::refusal(first_refusal(&image[..], s).number()),
    };
    sealed(a)
}

// The answer to any frame where there is no session to go by: for an image of so many bytes, which stays as it is. Number 14 is never looked at.
pub fn no_session(bytes: usize) -> SealedAnswer
    ensures { result ≡ sealed_no_session_of bytes }
{
    sealed(card::no_session(bytes))
}
