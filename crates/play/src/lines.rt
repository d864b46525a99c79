// The lines of the printout.
ghost use Rattle.std.specs.Prelude.{◌++◌, ◌+◌, ◌≤◌, length};
ghost use Rattle.play.specs.Text.{decimal_of};
ghost use Rattle.play.specs.Puts.{Puts};
ghost use Rattle.play.specs.Printout.{refusal_line, header_line, nak_mark, mark_of, event_line, block_line};

use crate::text::{Printer, low_digit};
use card::Sign;
use edition::Edition;
use either_card::CardAnswer;
use script::Refusal;

impl Printer<'_> {
    // A word and a number after it.
    fn number(&mut self, word: &[u8], n: usize)
        requires { self.old.at + length word.now + 4 ≤ length self.old.out.now }
        ensures puts { Puts self.old (word.now ++ decimal_of n) self.new }
        ensures upper_bound { self.new.at ≤ self.old.at + length word.now + 4 }
    {
        self.put(word);
        self.decimal(n);
    }

    pub(crate) fn refusal(&mut self, refusal: Refusal)
        requires { self.old.at + 64 ≤ length self.old.out.now }
        ensures { Puts self.old (refusal_line refusal) self.new }
    {
        self.number(b"script ", refusal as usize);
        self.put(b"\n");
    }

    pub(crate) fn header(&mut self, size: usize, count: usize)
        requires { self.old.at + 64 ≤ length self.old.out.now }
        ensures puts { Puts self.old (header_line size count) self.new }
        ensures upper_bound { self.new.at ≤ self.old.at + 64 }
    {
        self.number(b"card ", size);
        self.number(b" events ", count);
        self.put(b"\n");
    }

    // An EV1's NAK has a value, one digit.
    fn nak(&mut self, edition: Edition, nak: u8)
        requires { self.old.at + 32 ≤ length self.old.out.now }
        ensures puts { Puts self.old (nak_mark edition nak) self.new }
        ensures upper_bound { self.new.at ≤ self.old.at + 32 }
    {
        match edition {
            Edition::Old => self.put(b"N"),
            Edition::Ev1 => self.put(&[b'N', low_digit(nak)]),
        }
    }

    // What an answer shows.
    fn mark(&mut self, edition: Edition, sign: Sign, nak: u8, reply: [u8; 16])
        requires { self.old.at + 32 ≤ length self.old.out.now }
        ensures puts { Puts self.old (mark_of edition sign nak reply) self.new }
        ensures upper_bound { self.new.at ≤ self.old.at + 32 }
    {
        match sign {
            Sign::Ack => self.put(b"A"),
            Sign::Nak => self.nak(edition, nak),
            Sign::Data => self.hex(reply),
            Sign::Nothing => self.put(b"-"),
        }
    }

    // An event's number, its result and what it shows.
    pub(crate) fn event(&mut self, edition: Edition, i: usize, a: CardAnswer)
        requires { self.old.at + 48 ≤ length self.old.out.now }
        ensures puts { Puts self.old (event_line edition i a) self.new }
        ensures upper_bound { self.new.at ≤ self.old.at + 48 }
    {
        self.decimal(i);
        self.put(b" ");
        self.decimal(usize::from(a.answer.number));
        self.put(b" ");
        self.mark(edition, a.answer.sign, a.nak, a.answer.reply);
        self.put(b"\n");
    }

    pub(crate) fn block(&mut self, b: u8, bytes: [u8; 16])
        requires { self.old.at + 64 ≤ length self.old.out.now }
        ensures puts { Puts self.old (block_line b bytes) self.new }
        ensures upper_bound { self.new.at ≤ self.old.at + 48 }
    {
        self.number(b"block ", usize::from(b));
        self.put(b" ");
        self.hex(bytes);
        self.put(b"\n");
    }
}
