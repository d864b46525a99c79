// The run: the events of a lawful script, one after the other, each answer kept as it comes.
ghost use Rattle.std.specs.Prelude.{◌≡◌, ℕ, ◌+◌, ◌*◌, ◌≤◌, List, length, Ok};
ghost use Rattle.either_card.specs.Answers.{CardAnswer};
ghost use Rattle.script.specs.Script.{refusal_in};
ghost use Rattle.runs.specs.Run.{begin, answer_to, image_upon, run_of, answers_of};
ghost use Rattle.play.specs.Puts.{Puts};
ghost use Rattle.play.specs.Run.{sent_of, reading_for, events_of};
ghost use Rattle.play.specs.Printout.{event_line};
ghost use Rattle.play.specs.Results.{result_of, card_result_of, kept_of};

use crate::text::Printer;
use edition::{CardRecord, Edition};
use either_card::CardAnswer;
use session::Session;

// How answers are kept: the bytes that one takes at most, and what is put for the answer to event i.
pub(crate) trait Form {
    ghost width: { ℕ };

    ghost kept: { Self → ℕ → CardAnswer → List ℕ };

    fn keep(&self, printer: &mut Printer<'_>, i: usize, a: CardAnswer)
        requires { printer.old.at + width ≤ length printer.old.out.now }
        ensures puts { Puts printer.old (kept self.now i a) printer.new }
        ensures upper_bound { printer.new.at ≤ printer.old.at + width };
}

// Each as its line of the printout.
#[derive(Drop)]
pub(crate) struct Lines(pub Edition);

// As eighteen bytes.
#[derive(Drop)]
pub(crate) struct Results;

// As nineteen, with the NAK's value.
#[derive(Drop)]
pub(crate) struct CardResults;

impl Form for Lines {
    ghost width = { 48 };

    ghost kept = { λ form. event_line form.0 };

    fn keep(&self, printer: &mut Printer<'_>, i: usize, a: CardAnswer) {
        printer.event(self.0, i, a)
    }
}

impl Form for Results {
    ghost width = { 18 };

    ghost kept = { λ form i. result_of };

    fn keep(&self, printer: &mut Printer<'_>, _: usize, a: CardAnswer) {
        printer.result(a)
    }
}

impl Form for CardResults {
    ghost width = { 19 };

    ghost kept = { λ form i. card_result_of };

    fn keep(&self, printer: &mut Printer<'_>, _: usize, a: CardAnswer) {
        printer.card_result(a)
    }
}

// The session and the record after the last event.
#[derive(Clone, Copy)]
pub(crate) struct Played {
    pub(crate) session: Session,
    pub(crate) card: CardRecord,
}

// One event: an empty one is a field reset.
#[tactic(auto, unfolding(crate::specs::Run::sent_of, runs::specs::Run::answer_to, runs::specs::Run::image_upon))]
fn event(image: &mut [u8], k: CardRecord, s: Session, frame: &[u8]) -> CardAnswer
    ensures value { result ≡ answer_to (record { card = k; image = image.old; session = s }) (sent_of frame.now) }
    ensures image_after { image.new ≡ image_upon (record { card = k; image = image.old; session = s }) (sent_of frame.now) }
{
    if frame.len() == 0 {
        return either_card::field_reset(k);
    }
    either_card::step(image, k, s, frame)
}

// The events of a lawful script, played from a fresh session; each answer is kept.
pub(crate) fn keep_events<F: Form>(
    form: &F,
    script: &[u8],
    card: CardRecord,
    image: &mut [u8],
    printer: &mut Printer<'_>,
) -> Played
    requires lawful { refusal_in (reading_for card.edition script.now) ≡ Ok tt }
    requires room { printer.old.at + F.width * 1000 ≤ length printer.old.out.now }
    ensures puts { Puts printer.old (kept_of (F.kept form.now) 1 (answers_of (begin card image.old) (events_of card.edition script.now))) printer.new }
    ensures session_value { result.session ≡ (run_of (begin card image.old) (events_of card.edition script.now)).session }
    ensures card_value { result.card ≡ (run_of (begin card image.old) (events_of card.edition script.now)).card }
    ensures image_after { image.new ≡ (run_of (begin card image.old) (events_of card.edition script.now)).image }
    ensures end_bound { printer.new.at ≤ printer.old.at + F.width * 1000 }
{
    let count = script::event_count(script);
    let mut place = script::events_start(script);
    let mut k = card;
    let mut session = session::fresh();
    for i in 1..=count {
        let here = reader::event_from(script, place);
        let frame = reader::bytes_of(script, here.found);
        let a = event(image, k, session, frame);
        form.keep(printer, i, a);
        session = a.answer.session;
        k = a.card;
        place = here.next;
    }
    Played { session, card: k }
}
