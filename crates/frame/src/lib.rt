// What a frame asks for.
#![tactic(auto)]

ghost use Rattle.std.specs.Prelude.{◌≡◌};
ghost use Rattle.frame.specs.Command.{byte_in, eight_bytes_of, two_bytes_of, first_of, command_of};

use access::Letter;
use layout::Block;
use session::{Kind, Stage};

// What is asked, and of which block. Write and Store are the first and the second frame of a Write, Begin and Apply those of a value operation.
// Each case that has a block has it first, so that the code keeps it in one place.
#[derive(Clone, Copy)]
pub enum Command {
    Unknown,
    Authenticate(Block, Letter),
    Read(Block),
    Write(Block),
    Store(Block),
    Begin(Block, Kind),
    Apply(Block, Kind),
    Transfer(Block),
    Halt,
}

// Byte i of a frame; 0 past its end.
pub fn byte(frame: &[u8], i: usize) -> u8
    ensures { result ≡ byte_in frame.now i }
{
    if i < frame.len() {
        return frame[i];
    }
    0
}

fn eight(code: u8, block: u8) -> Command
    ensures { result ≡ eight_bytes_of code block }
{
    let b = Block(block);
    match code {
        0x60 => Command::Authenticate(b, Letter::KeyA),
        0x61 => Command::Authenticate(b, Letter::KeyB),
        _ => Command::Unknown,
    }
}

#[tactic(auto, unfolding(crate::specs::Command::two_bytes_of))]
fn two(code: u8, block: u8) -> Command
    ensures { result ≡ two_bytes_of code block }
{
    let b = Block(block);
    match code {
        0x30 => Command::Read(b),
        0xA0 => Command::Write(b),
        0xC1 => Command::Begin(b, Kind::Increment),
        0xC0 => Command::Begin(b, Kind::Decrement),
        0xC2 => Command::Begin(b, Kind::Restore),
        0xB0 => Command::Transfer(b),
        0x50 => {
            if block == 0 {
                Command::Halt
            } else {
                Command::Unknown
            }
        }
        _ => Command::Unknown,
    }
}

fn first_command(frame: &[u8]) -> Command
    ensures { result ≡ first_of frame.now }
{
    let n = frame.len();
    if n == 8 {
        return eight(frame[0], frame[1]);
    }
    if n == 2 {
        return two(frame[0], frame[1]);
    }
    Command::Unknown
}

// A second frame is taken by the stage, whatever it begins with.
#[tactic(auto, unfolding(crate::specs::Command::command_of))]
pub fn command_of(stage: Stage, frame: &[u8]) -> Command
    ensures { result ≡ command_of stage frame.now }
{
    let n = frame.len();
    match stage {
        Stage::Idle => first_command(frame),
        Stage::WriteWaits(b) => {
            if n == 16 {
                Command::Store(b)
            } else {
                Command::Unknown
            }
        }
        Stage::ValueWaits(k, b) => {
            if n == 4 {
                Command::Apply(b, k)
            } else {
                Command::Unknown
            }
        }
    }
}
