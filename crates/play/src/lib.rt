// The run of a script and its printout, every byte of it.
#![tactic(auto)]

ghost use Rattle.std.specs.Prelude.{◌≡◌, ◌*◌, ◌≤◌, length, Ok};
ghost use Rattle.edition.specs.Edition.{old_card};
ghost use Rattle.edition.specs.declared.Edition.TheVariants.{Old};
ghost use Rattle.script.specs.Script.{refusal_in};
ghost use Rattle.session.specs.Session.{fresh_of};
ghost use Rattle.runs.specs.Run.{begin, run_of, answers_of};
ghost use Rattle.play.specs.Text.{put_of, Put};
ghost use Rattle.play.specs.Run.{reading_for, events_of};
ghost use Rattle.play.specs.Results.{results_of, card_results_of, kept_of};
ghost use Rattle.play.specs.Printout.{refusal_line, printed, printout_of, ev1_printout_of};

mod changes;
mod events;
mod lines;
mod results;
mod text;

use edition::{CardRecord, Edition};
use events::{CardResults, Form, Lines, Results};
use script::Refusal;
use session::Session;
use text::Printer;

// Where the kept answers end, and the session and the record after the last event.
#[derive(Clone, Copy)]
pub struct Ended {
    pub end: usize,
    pub session: Session,
    pub card: CardRecord,
}

// The refusal of a card's script, by the card's edition.
#[tactic(auto, unfolding(crate::specs::Run::reading_for))]
fn refusal_for(edition: Edition, script: &[u8]) -> Result<(), Refusal>
    ensures { result ≡ refusal_in (reading_for edition script.now) }
{
    match edition {
        Edition::Old => script::refusal_of(script),
        Edition::Ev1 => match script::ev1_script(script) {
            Ok(_) => Ok(()),
            Err(unlawful) => Err(unlawful.refusal),
        },
    }
}

// What a refused script leaves: no answer, a fresh session and the record that was handed in.
fn unplayed(card: CardRecord) -> Ended
    ensures { result ≡ record { end = 0; session = fresh_of; card = card } }
{
    Ended {
        end: 0,
        session: session::fresh(),
        card,
    }
}

// The events of a card's lawful script, played from a fresh session; each answer is kept, from the start of a buffer.
fn kept_run<F: Form>(
    form: &F,
    script: &[u8],
    card: CardRecord,
    image: &mut [u8],
    results: &mut [u8],
) -> Ended
    requires lawful { refusal_in (reading_for card.edition script.now) ≡ Ok tt }
    requires room { F.width * 1000 ≤ length results.old }
    ensures put { Put results.old 0 (kept_of (F.kept form.now) 1 (answers_of (begin card image.old) (events_of card.edition script.now))) results.new result.end }
    ensures session_value { result.session ≡ (run_of (begin card image.old) (events_of card.edition script.now)).session }
    ensures card_value { result.card ≡ (run_of (begin card image.old) (events_of card.edition script.now)).card }
    ensures image_after { image.new ≡ (run_of (begin card image.old) (events_of card.edition script.now)).image }
{
    let mut printer = Printer {
        out: results,
        at: 0,
    };
    let played = events::keep_events(form, script, card, image, &mut printer);
    Ended {
        end: printer.at,
        session: played.session,
        card: played.card,
    }
}

// The events of an old card's script, none of a refused one, played on any image from a fresh session. Each result takes eighteen bytes.
#[tactic(auto, using(crate::proofs::Whole::unplayed), unfolding(crate::specs::Run::reading_for, crate::specs::Results::results_of))]
pub fn run(script: &[u8], image: &mut [u8], results: &mut [u8; 18000]) -> Ended
    ensures session_value { result.session ≡ (run_of (begin old_card image.old) (events_of Old script.now)).session }
    ensures card_value { result.card ≡ (run_of (begin old_card image.old) (events_of Old script.now)).card }
    ensures image_after { image.new ≡ (run_of (begin old_card image.old) (events_of Old script.now)).image }
    ensures end_value { result.end ≡ length (results_of (answers_of (begin old_card image.old) (events_of Old script.now))) }
    ensures results_after { results.new ≡ put_of results.old 0 (results_of (answers_of (begin old_card image.old) (events_of Old script.now))) }
{
    let card = edition::old_card();
    let Ok(()) = script::refusal_of(script) else {
        return unplayed(card);
    };
    kept_run(&Results, script, card, image, results)
}

// The same for a card of either edition with its record, by the script of its edition; the record that is handed in is the one that it begins with. Each result takes nineteen bytes.
#[tactic(auto, using(crate::proofs::Whole::unplayed), unfolding(crate::specs::Results::card_results_of))]
pub fn card_run(
    script: &[u8],
    card: CardRecord,
    image: &mut [u8],
    results: &mut [u8; 19000],
) -> Ended
    ensures session_value { result.session ≡ (run_of (begin card image.old) (events_of card.edition script.now)).session }
    ensures card_value { result.card ≡ (run_of (begin card image.old) (events_of card.edition script.now)).card }
    ensures image_after { image.new ≡ (run_of (begin card image.old) (events_of card.edition script.now)).image }
    ensures end_value { result.end ≡ length (card_results_of (answers_of (begin card image.old) (events_of card.edition script.now))) }
    ensures results_after { results.new ≡ put_of results.old 0 (card_results_of (answers_of (begin card image.old) (events_of card.edition script.now))) }
{
    let Ok(()) = refusal_for(card.edition, script) else {
        return unplayed(card);
    };
    kept_run(&CardResults, script, card, image, results)
}

// The printout of a refused script.
fn put_refusal(refusal: Refusal, out: &mut [u8; 65536]) -> usize
    ensures { Put out.old 0 (refusal_line refusal) out.new result }
{
    let mut printer = Printer { out, at: 0 };
    printer.refusal(refusal);
    printer.at
}

// The printout of a lawful script.
fn put_run(card: CardRecord, script: &[u8], out: &mut [u8; 65536]) -> usize
    requires { refusal_in (reading_for card.edition script.now) ≡ Ok tt }
    ensures { Put out.old 0 (printed card script.now (reading_for card.edition script.now)) out.new result }
{
    let first = script::image_of(script);
    let size = script::image_size(script);
    let count = script::event_count(script);
    let mut space = [0u8; 4096];
    let image = &mut space[..size];
    image.copy_from_slice(first);
    let mut printer = Printer { out, at: 0 };
    printer.header(size, count);
    events::keep_events(&Lines(card.edition), script, card, image, &mut printer);
    printer.changes(first, image, layout::blocks_of(size));
    printer.at
}

// The printout of any script on an old card, and how long it is.
pub fn play(script: &[u8], out: &mut [u8; 65536]) -> usize
    ensures value { result ≡ length (printout_of script.now) }
    ensures out_after { out.new ≡ put_of out.old 0 (printout_of script.now) }
    ensures upper_bound { result ≤ length out.new }
{
    match script::refusal_of(script) {
        Ok(()) => put_run(edition::old_card(), script, out),
        Err(refusal) => put_refusal(refusal, out),
    }
}

// The printout of any script on an EV1, which begins with the choice that the script names.
pub fn play_ev1(script: &[u8], out: &mut [u8; 65536]) -> usize
    ensures value { result ≡ length (ev1_printout_of script.now) }
    ensures out_after { out.new ≡ put_of out.old 0 (ev1_printout_of script.now) }
    ensures upper_bound { result ≤ length out.new }
{
    match script::ev1_script(script) {
        Ok(choice) => {
            let card = CardRecord {
                edition: Edition::Ev1,
                choice,
            };
            put_run(card, script, out)
        }
        Err(unlawful) => put_refusal(unlawful.refusal, out),
    }
}
