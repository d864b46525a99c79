// Plays directories and access bytes of another implementation against the crate `issue`: for each file how many of its records agree, of how many.
#![tactic(auto)]

mod access_bytes;
mod directories;
mod files;
mod record;

use files::play;
use std::io;

fn main(rt: HostRuntime) -> io::Result<()> {
    play(&rt, "directories.bin", 159, directories::agree)?;
    play(&rt, "access_bytes.bin", 7, access_bytes::agree)
}
