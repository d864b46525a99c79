// The blocks that differ at the end, each with its line in the printout.
ghost use Rattle.std.specs.Prelude.{◌+◌, ◌*◌, ◌≤◌, length};
ghost use Rattle.play.specs.Puts.{Puts};
ghost use Rattle.play.specs.Printout.{change_line, changed_from};

use crate::text::Printer;
use layout::Block;

impl Printer<'_> {
    // The line of one block, where it differs.
    fn change(&mut self, old: &[u8], new: &[u8], b: u8)
        requires { self.old.at + 64 ≤ length self.old.out.now }
        ensures puts { Puts self.old (change_line old.now new.now b) self.new }
        ensures upper_bound { self.new.at ≤ self.old.at + 48 }
    {
        let now = memory::content(new, Block(b));
        if memory::content(old, Block(b)) != now {
            self.block(b, now);
        }
    }

    // The lines of so many blocks from block 0 on.
    pub(crate) fn changes(&mut self, old: &[u8], new: &[u8], count: usize)
        requires { (count ≤ 256) × (self.old.at + 48 * count + 64 ≤ length self.old.out.now) }
        ensures { Puts self.old (changed_from old.now new.now count 0) self.new }
    {
        for b in 0..count {
            self.change(old, new, b as u8);
        }
    }
}
