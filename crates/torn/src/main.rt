// Plays value blocks of another implementation against the crate `mend`: for each file how many of its records agree, of how many.
#![tactic(auto)]

mod blocks;
mod files;
mod record;

use files::play;
use std::io;

fn main(rt: HostRuntime) -> io::Result<()> {
    play(&rt, "blocks.bin", 21, blocks::come_back)?;
    play(&rt, "forms.bin", 22, blocks::agrees_in_form)
}
