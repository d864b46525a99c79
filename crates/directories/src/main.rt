// Plays the figures of another implementation's directories against the crate `directory`: for each file how many of its records agree, of how many.
#![tactic(auto)]

mod cards;
mod files;
mod record;

use files::{load, play};
use std::io;

fn main(rt: HostRuntime) -> io::Result<()> {
    let mut space = [0u8; 32768];
    let directories = load(&rt, "directories.bin", &mut space);
    play(&rt, "checksums.bin", 49, cards::agrees_in_checksum)?;
    play(
        &rt,
        "versions.bin",
        3,
        |record| cards::agrees_in_version(record, directories),
    )?;
    play(&rt, "directories.bin", 159, cards::agrees_in_directory)?;
    play(
        &rt,
        "lookups.bin",
        46,
        |record| cards::agrees_in_lookup(record, directories),
    )
}
