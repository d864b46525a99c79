// An EV1's script: a third section after the events, with the type that is already locked.
ghost use Rattle.std.specs.Prelude.{◌≡◌};
ghost use Rattle.edition.specs.declared.Edition.TheVariants.{Ev1};
ghost use Rattle.script.specs.Script.{body_of};
ghost use Rattle.script.specs.Lock.{lock_refusal, lock_at, choice_in, ev1_script_of};

use crate::{Refusal, body, byte, left_over};
use edition::{Edition, Usage};

// The refusal that is met first, and the choice that the script would begin with.
#[derive(Clone, Copy)]
pub struct Unlawful {
    pub refusal: Refusal,
    pub choice: Option<Usage>,
}

#[tactic(auto, unfolding(crate::specs::Lock::lock_refusal))]
fn lock_refusal(script: &[u8], at: usize) -> Result<(), Refusal>
    ensures { result ≡ lock_refusal script.now at }
{
    if script.len() <= at {
        return Err(Refusal::CutShort);
    }
    let count = script[at];
    if 1 < count {
        return Err(Refusal::TooManyTypes);
    }
    if count == 0 {
        return left_over(script, at + 1);
    }
    if script.len() <= at + 1 {
        return Err(Refusal::CutShort);
    }
    if edition::is_usage(script[at + 1]) {
        return left_over(script, at + 2);
    }
    Err(Refusal::UnknownType)
}

// The choice that the section at a place names.
#[tactic(auto, unfolding(crate::specs::Lock::lock_at))]
fn lock_at(script: &[u8], at: usize) -> Option<Usage>
    ensures { result ≡ lock_at script.now at }
{
    if script.len() <= at {
        return None;
    }
    edition::choice_by(byte(script, at), byte(script, at + 1))
}

// The choice at the start of any script, be its third section lawful or not; none where the events are not all there.
#[tactic(auto, unfolding(crate::specs::Lock::choice_in, crate::specs::Script::place_of))]
pub fn ev1_choice(script: &[u8]) -> Option<Usage>
    ensures { result ≡ choice_in script.now (body_of Ev1 script.now) }
{
    match body(Edition::Ev1, script) {
        Ok(at) => lock_at(script, at),
        Err(_) => None,
    }
}

// What is read of any script, as an EV1's: the choice at the start, and beside it the refusal that is met first where there is one.
pub fn ev1_script(script: &[u8]) -> Result<Option<Usage>, Unlawful>
    ensures { result ≡ ev1_script_of script.now }
{
    let at = match body(Edition::Ev1, script) {
        Ok(at) => at,
        Err(refusal) => {
            return Err(Unlawful {
                refusal,
                choice: None,
            });
        }
    };
    let choice = lock_at(script, at);
    match lock_refusal(script, at) {
        Ok(()) => Ok(choice),
        Err(refusal) => Err(Unlawful { refusal, choice }),
    }
}
