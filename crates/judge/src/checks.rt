// The checks, as code.
ghost use Rattle.std.specs.Prelude.{◌≡◌, not, false, true, cond, ◌||◌, [], ◌∷◌};
ghost use Rattle.access.specs.Rights.{writable_of};
ghost use Rattle.judge.specs.First.{check, first};
ghost use Rattle.judge.specs.Checks.{no_card, is_key, is_forbidden, trailer_right, right_of};
ghost use Rattle.judge.specs.Code.{numbered, trailer_grant, granted, verdict_of, guarded_of, letter_of};
ghost use Rattle.judge.specs.declared.checks.Grant.TheVariants.{Whole, InParts};

use crate::Refusal;
use access::{AccessBytes, Letter, Operation, Parts};
use layout::{Block, Group, Sector};
use std::array;

// What the checks of a memory command grant: its block whole, or a trailer by its parts, with the trailer's bits. No Option: the whole is more than parts, and not nothing.
#[derive(Clone, Copy)]
pub enum Grant {
    Whole,
    InParts(u8),
}

pub(crate) fn is_no_card(image: &[u8]) -> bool
    ensures { result ≡ no_card image.now }
{
    layout::sectors_of(image.len()) == 0
}

// Are the six key bytes of the frame those of the trailer?
#[tactic(auto, unfolding(crate::specs::Checks::is_key))]
pub(crate) fn is_key(t: [u8; 16], l: Letter, frame: &[u8]) -> bool
    ensures { result ≡ is_key t l frame.now }
{
    let key: [u8; 6] = array::from_fn(|i| frame::byte(frame, 2 + i));
    match l {
        Letter::KeyA => t.first_chunk() == Some(&key),
        Letter::KeyB => t[10..].first_chunk() == Some(&key),
    }
}

// Is the operation forbidden on a data block, which may be block 0?
fn is_forbidden(o: Operation, zero: bool) -> bool
    ensures { result ≡ is_forbidden o zero false }
{
    match o {
        Operation::Read => false,
        Operation::Write => zero,
        Operation::Increment => zero,
        Operation::Decrement => zero,
    }
}

// Checks 6 and 7 of a data block with the bits n, in a sector whose trailer has the bits m.
fn data_rule(l: Letter, o: Operation, zero: bool, n: u8, m: u8) -> Result<Grant, Refusal>
    ensures { numbered result ≡ granted (first (check 6 (is_forbidden o zero false) ∷ check 7 (not (right_of l o false n m)) ∷ [])) Whole }
{
    if is_forbidden(o, zero) {
        return Err(Refusal::Forbidden);
    }
    if access::is_mute(l, m) {
        return Err(Refusal::NoRight);
    }
    if access::may(l, o, n) {
        return Ok(Grant::Whole);
    }
    Err(Refusal::NoRight)
}

// Check 7 of a Write into a trailer.
fn write_rule(mute: bool, p: Parts, m: u8) -> Result<Grant, Refusal>
    ensures { numbered result ≡ granted (first (check 7 (mute || not (trailer_right Operation.Write p)) ∷ [])) (trailer_grant Operation.Write p m) }
{
    let a = p.a;
    let bits = p.bits;
    let b = p.b;
    if mute {
        return Err(Refusal::NoRight);
    }
    if a & bits & b {
        return Ok(Grant::Whole);
    }
    if a | bits | b {
        return Ok(Grant::InParts(m));
    }
    Err(Refusal::NoRight)
}

// Check 7 of a Read of a trailer, whose only bar is a readable key B.
fn read_rule(mute: bool, m: u8) -> Result<Grant, Refusal>
    ensures { numbered result ≡ cond mute (Err 7) (Ok (InParts m)) }
{
    if mute {
        return Err(Refusal::NoRight);
    }
    Ok(Grant::InParts(m))
}

// Checks 6 and 7 of a trailer with the bits m.
fn trailer_rule(l: Letter, o: Operation, m: u8) -> Result<Grant, Refusal>
    ensures { numbered result ≡ granted (first (check 6 (is_forbidden o false true) ∷ check 7 (not (right_of l o true m m)) ∷ [])) (trailer_grant o (writable_of l m) m) }
{
    match o {
        Operation::Read => read_rule(access::is_mute(l, m), m),
        Operation::Write => write_rule(access::is_mute(l, m), access::writable(l, m), m),
        Operation::Increment => Err(Refusal::Forbidden),
        Operation::Decrement => Err(Refusal::Forbidden),
    }
}

// Checks 5, 6 and 7, by the access bytes of the block's sector.
fn guarded(x: AccessBytes, l: Letter, o: Operation, b: Block) -> Result<Grant, Refusal>
    ensures { numbered result ≡ guarded_of x l o b }
{
    let zero = b.0 == 0;
    let g = layout::group_of(b);
    let Some(n) = access::bits_of(x, g) else {
        return Err(Refusal::Blocked);
    };
    let Some(m) = access::bits_of(x, Group::Trailer) else {
        return Err(Refusal::Blocked);
    };
    match g {
        Group::Trailer => trailer_rule(l, o, n),
        _ => data_rule(l, o, zero, n, m),
    }
}

#[tactic(auto, unfolding(crate::specs::Code::letter_of))]
fn letter_of(auth: Option<(Sector, Letter)>) -> Letter
    ensures { result ≡ letter_of auth }
{
    auth.map_or(Letter::KeyA, |(_, l)| l)
}

// Checks 2, 3, 5, 6 and 7, which every memory command has to pass.
pub(crate) fn memory_verdict(
    image: &[u8],
    auth: Option<(Sector, Letter)>,
    o: Operation,
    b: Block,
) -> Result<Grant, Refusal>
    ensures { numbered result ≡ verdict_of image.now auth o b }
{
    if !layout::has_block(image.len(), b) {
        return Err(Refusal::NoBlock);
    }
    let s = layout::sector_of(b);
    if !session::in_sector(auth, s) {
        return Err(Refusal::OtherSector);
    }
    let t = memory::content(image, layout::trailer_of(s));
    guarded(access::access_bytes_of(t), letter_of(auth), o, b)
}
