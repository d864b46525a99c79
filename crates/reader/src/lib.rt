// A walk over a lent script that remembers its place. The work is done by functions on the slice and the number.
#![tactic(auto)]

ghost use Rattle.std.specs.Prelude.{◌≡◌};
ghost use Rattle.script.specs.Script.{events_start};
ghost use Rattle.reader.specs.Reader.{found_at, step_at, part_of, bytes_of};

use script::Refusal;

// The script, and the place where the walk stands.
#[derive(Clone, Copy)]
pub struct Reader<'a> {
    script: &'a [u8],
    at: usize,
}

// An event of the script: where its bytes start and how many they are.
#[derive(Clone, Copy)]
pub struct Event {
    pub start: usize,
    pub count: usize,
}

// What stands at a place, an event or its refusal, and nothing at the end; and where the next event stands.
#[derive(Clone, Copy)]
pub struct Step {
    pub found: Option<Result<Event, Refusal>>,
    pub next: usize,
}

#[tactic(auto, unfolding(crate::specs::Reader::found_at))]
fn found_at(script: &[u8], at: usize) -> Option<Result<Event, Refusal>>
    ensures { result ≡ found_at script.now at }
{
    if script.len() <= at {
        return None;
    }
    let start = at + 1;
    let count = usize::from(script[at]);
    Some(script::event_refusal(script, at).map(|()| Event { start, count }))
}

fn step_at(script: &[u8], at: usize) -> Step
    ensures value { result ≡ step_at script.now at }
{
    let found = found_at(script, at);
    let next = script::next_at(script, at);
    Step { found, next }
}

// So many bytes of a script from a place on; none where they are not all there.
#[tactic(auto, unfolding(crate::specs::Reader::part_of))]
fn part(script: &[u8], start: usize, count: usize) -> &[u8]
    ensures { result.now ≡ part_of script.now start count }
{
    script
        .get(start..)
        .and_then(|rest| rest.get(..count))
        .unwrap_or(&[])
}

// The bytes of what was found in a script; none but for an event, whatever refuses one.
#[tactic(auto, unfolding(crate::specs::Reader::bytes_of))]
pub fn bytes_of<E: Copy>(script: &[u8], found: Option<Result<Event, E>>) -> &[u8]
    ensures { result.now ≡ bytes_of script.now found }
{
    match found {
        Some(Ok(event)) => part(script, event.start, event.count),
        Some(Err(_)) | None => &[],
    }
}

fn stand<'a>(script: &'a [u8], at: usize) -> Reader<'a>
    ensures { (result.script ≡ script.entry) × (result.at ≡ at) }
{
    Reader { script, at }
}

// A walk that stands at the first event.
pub fn open<'a>(script: &'a [u8]) -> Reader<'a>
    ensures { (result.script ≡ script.entry) × (result.at ≡ events_start script.now) }
{
    stand(script, script::events_start(script))
}

// No Iterator: `next` promises a whole step (docs/PROMISES.md), and an item would not say where the next event stands.
impl<'a> Reader<'a> {
    // Where the walk stands.
    pub fn place(self) -> usize
        ensures { result ≡ self.entry.at }
    {
        self.at
    }

    // What stands there.
    pub fn peek(self) -> Step
        ensures { result ≡ step_at self.entry.script.now self.entry.at }
    {
        step_at(self.script, self.at)
    }

    // What stands there; and the walk moves on.
    pub fn next(&mut self) -> Step
        ensures { (result ≡ step_at self.old.script.now self.old.at)
            × (self.new.script ≡ self.old.script)
            × (self.new.at ≡ result.next) }
    {
        let step = step_at(self.script, self.at);
        self.at = step.next;
        step
    }
}

// What stands at a place of a script, for those who hold no walk.
pub fn event_from(script: &[u8], at: usize) -> Step
    ensures { result ≡ step_at script.now at }
{
    stand(script, at).peek()
}
