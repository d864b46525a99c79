// The two frames of a value operation, after the checks that every memory command has to pass.
ghost use Rattle.std.specs.Prelude.{◌≡◌, [], ◌∷◌, ◌≤◌, length};
ghost use Rattle.value.specs.Block.{bits_in};
ghost use Rattle.judge.specs.First.{check, first, ruled};
ghost use Rattle.judge.specs.Checks.{no_value};
ghost use Rattle.judge.specs.Judge.{total_for, load_of, applied_of};

use crate::{Act, Refusal, refused};
use layout::Block;
use session::Kind;
use value::SumError;

// A value operation's first frame after the shared checks: 8, and then its second frame is awaited.
pub(crate) fn begin(image: &[u8], k: Kind, b: Block) -> Act
    ensures { result ≡ ruled (first (check 8 (no_value image.now b) ∷ [])) (Act.ValueWaits b k) }
{
    match value::decode(memory::content(image, b)) {
        None => refused(Refusal::NoValue),
        Some(_) => Act::ValueWaits(b, k),
    }
}

fn total(k: Kind, value: u32, operand: u32) -> Result<u32, SumError>
    ensures { result ≡ total_for k value operand }
{
    match k {
        Kind::Increment => value::plus(value, operand),
        Kind::Decrement => value::minus(value, operand),
        Kind::Restore => Ok(value),
    }
}

#[tactic(auto, unfolding(crate::specs::Judge::load_of))]
fn load(t: Result<u32, SumError>, address: u8) -> Act
    ensures { result ≡ load_of t address }
{
    match t {
        Ok(v) => Act::Loaded(v, address),
        Err(SumError::Negative) => refused(Refusal::NegativeOperand),
        Err(SumError::Outside) => refused(Refusal::OutOfRange),
    }
}

// The first four bytes of a frame, low byte first.
fn operand_of(frame: &[u8]) -> u32
    requires { 4 ≤ length frame.now }
    ensures { result ≡ bits_in frame.now }
{
    value::word(frame[0], frame[1], frame[2], frame[3])
}

// A value operation's second frame after the shared checks: 8, 13, 10, and then the result is loaded.
pub(crate) fn apply(image: &[u8], k: Kind, b: Block, frame: &[u8]) -> Act
    requires { 4 ≤ length frame.now }
    ensures { result ≡ ruled (first (check 8 (no_value image.now b) ∷ [])) (applied_of image.now k b frame.now) }
{
    let operand = operand_of(frame);
    match value::decode(memory::content(image, b)) {
        None => refused(Refusal::NoValue),
        Some((v, a)) => load(total(k, v, operand), a),
    }
}
