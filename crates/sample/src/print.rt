// The lines of the printout.
ghost use Rattle.std.specs.Prelude.{◌<◌};

use card::{Answer, Sign};
use std::io;

fn digit(n: u8) -> u8
    requires { n < 16 }
{
    if n < 10 {
        return b'0' + n;
    }
    b'A' + (n - 10)
}

// A byte as two hexadecimal digits.
fn print_byte(rt: &impl Print, b: u8) -> io::Result<()> {
    let digits = [digit(b / 16), digit(b % 16)];
    rt.write_all(&digits)
}

fn print_block(rt: &impl Print, bytes: [u8; 16]) -> io::Result<()> {
    for b in bytes {
        print_byte(rt, b)?;
    }
    Ok(())
}

// What goes on the air.
fn print_sign(rt: &impl Print, sign: Sign, reply: [u8; 16]) -> io::Result<()> {
    match sign {
        Sign::Ack => print!(rt; "A"),
        Sign::Nak => print!(rt; "N"),
        Sign::Data => print_block(rt, reply),
        Sign::Nothing => print!(rt; "-"),
    }
}

// The line of an event.
pub(crate) fn event(rt: &impl Print, number: u64, a: Answer) -> io::Result<()> {
    print!(rt; "{number} {} ", a.number)?;
    print_sign(rt, a.sign, a.reply)?;
    println!(rt)
}

// The line above a run.
pub(crate) fn title(rt: &impl Print, text: &str) -> io::Result<()> {
    println!(rt; "{text}")
}
