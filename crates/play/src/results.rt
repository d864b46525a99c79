// An answer as eighteen bytes, or as nineteen.
ghost use Rattle.std.specs.Prelude.{◌+◌, ◌≤◌, length};
ghost use Rattle.play.specs.Puts.{Puts};
ghost use Rattle.play.specs.Results.{result_of, card_result_of};

use crate::text::Printer;
use either_card::CardAnswer;

impl Printer<'_> {
    pub(crate) fn result(&mut self, a: CardAnswer)
        requires { self.old.at + 18 ≤ length self.old.out.now }
        ensures puts { Puts self.old (result_of a) self.new }
        ensures upper_bound { self.new.at ≤ self.old.at + 18 }
    {
        self.put(&[a.answer.number, card::sign_code(a.answer.sign)]);
        self.put(&a.answer.reply);
    }

    pub(crate) fn card_result(&mut self, a: CardAnswer)
        requires { self.old.at + 19 ≤ length self.old.out.now }
        ensures puts { Puts self.old (card_result_of a) self.new }
        ensures upper_bound { self.new.at ≤ self.old.at + 19 }
    {
        self.put(&[a.answer.number, card::sign_code(a.answer.sign), a.nak]);
        self.put(&a.answer.reply);
    }
}
