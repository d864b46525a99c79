// What an act does: its answer, and what it does to the image.
ghost use Rattle.std.specs.Prelude.{◌≡◌};
ghost use Rattle.session.specs.declared.Stage.TheVariants.{Idle};
ghost use Rattle.card.specs.Trailer.{zeros};
ghost use Rattle.card.specs.Effects.{refused_sign, image_of};
ghost use Rattle.card.specs.Step.{answered, refusal_of};
ghost use Rattle.card.specs.declared.Sign.TheVariants.{Ack, Nothing};

use crate::{Answer, Sign, trailer};
use access::Letter;
use judge::Act;
use layout::Sector;
use session::{Session, Stage};

fn refused_sign(n: u8) -> Sign
    ensures { result ≡ refused_sign n }
{
    if (n == 11) | (n == 12) | (n == 29) | (n == 1) | (n == 4) {
        return Sign::Nothing;
    }
    Sign::Nak
}

// The answer of a refusal, by any number: a narrower type would ask more of callers.
pub fn refusal(n: u8) -> Answer
    ensures { result ≡ refusal_of n }
{
    let sign = refused_sign(n);
    let session = session::fresh();
    Answer {
        number: n,
        sign,
        reply: [0u8; 16],
        session,
    }
}

fn accepted(sign: Sign, reply: [u8; 16], session: Session) -> Answer
    ensures { result ≡ record { number = 0; sign = sign; reply = reply; session = session } }
{
    Answer {
        number: 0,
        sign,
        reply,
        session,
    }
}

fn ack(session: Session) -> Answer
    ensures { result ≡ record { number = 0; sign = Ack; reply = zeros; session = session } }
{
    accepted(Sign::Ack, [0u8; 16], session)
}

fn silent(session: Session) -> Answer
    ensures { result ≡ record { number = 0; sign = Nothing; reply = zeros; session = session } }
{
    accepted(Sign::Nothing, [0u8; 16], session)
}

fn logged_in(t: Sector, l: Letter) -> Session
    ensures { result ≡ record { auth = Some (t, l); stage = Idle; register = None } }
{
    Session {
        auth: Some((t, l)),
        stage: Stage::Idle,
        register: None,
    }
}

fn awaiting(s: Session, w: Stage) -> Session
    ensures { result ≡ record { auth = s.auth; stage = w; register = s.register } }
{
    Session { stage: w, ..s }
}

fn loaded(s: Session, v: u32, a: u8) -> Session
    ensures { result ≡ record { auth = s.auth; stage = Idle; register = Some (v, a) } }
{
    Session {
        stage: Stage::Idle,
        register: Some((v, a)),
        ..s
    }
}

// What an act does. It is taken apart once: a case gives its answer, and stores where it has something to store.
pub fn enact(image: &mut [u8], s: Session, act: Act, frame: &[u8]) -> Answer
    ensures value { result ≡ answered image.old s act }
    ensures image_after { image.new ≡ image_of image.old s.auth act frame.now }
{
    match act {
        Act::Refused(n) => refusal(n),
        Act::Authenticated(t, l) => ack(logged_in(t, l)),
        Act::Shown(b) => accepted(Sign::Data, memory::content(&image[..], b), s),
        Act::TrailerShown(b, m) => {
            let trailer = memory::content(&image[..], b);
            accepted(Sign::Data, trailer::shown(trailer, m), s)
        }
        Act::WriteWaits(b) => ack(awaiting(s, Stage::WriteWaits(b))),
        Act::ValueWaits(b, k) => ack(awaiting(s, Stage::ValueWaits(k, b))),
        Act::Stored(b) => {
            memory::store(image, b, memory::sixteen(frame));
            ack(awaiting(s, Stage::Idle))
        }
        Act::TrailerStored(b, m) => {
            let old = memory::content(&image[..], b);
            memory::store(
                image,
                b,
                trailer::written(s.auth, m, old, memory::sixteen(frame)),
            );
            ack(awaiting(s, Stage::Idle))
        }
        Act::Loaded(v, a) => silent(loaded(s, v, a)),
        Act::Moved(b, v, a) => {
            memory::store(image, b, value::encode(v, a));
            ack(s)
        }
        Act::Halted => silent(session::fresh()),
    }
}
