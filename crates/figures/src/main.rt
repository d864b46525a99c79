// Plays the figures of other implementations against the crates: for each file how many of its lines agree, of how many.
#![tactic(auto)]

mod bits;
mod blocks;
mod checksums;
mod line;
mod play;
mod rights;
mod values;

use play::play;
use std::io;

fn main(rt: HostRuntime) -> io::Result<()> {
    play(&rt, "layout", "layout.txt", 5, blocks::agrees)?;
    play(&rt, "access_bytes", "access_bytes.txt", 7, bits::agrees)?;
    play(
        &rt,
        "access_format",
        "access_format.txt",
        4,
        bits::agrees_in_form,
    )?;
    play(
        &rt,
        "rights_data",
        "rights_data.txt",
        7,
        rights::agrees_for_data,
    )?;
    play(
        &rt,
        "rights_trailer",
        "rights_trailer.txt",
        8,
        rights::agrees_for_trailer,
    )?;
    play(&rt, "value_blocks", "value_blocks.txt", 21, values::agrees)?;
    play(
        &rt,
        "value_format",
        "value_format.txt",
        22,
        values::agrees_in_form,
    )?;
    play(&rt, "checksums", "checksums.txt", 19, checksums::agrees)
}
