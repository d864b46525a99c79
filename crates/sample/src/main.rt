// Plays fixed frames to the card, and prints for each what comes back: its number from 1, the result number, and what is on the air.
#![tactic(auto)]

mod image;
mod print;
mod runs;

use std::io;

fn main(rt: HostRuntime) -> io::Result<()> {
    runs::sample(&rt)?;
    runs::key_b(&rt)?;
    runs::last_block(&rt)?;
    runs::keys_change(&rt)?;
    runs::wrong_key(&rt)
}
