// A file of figures: read, its lines counted, and those that agree.
ghost use Rattle.std.specs.Prelude.{◌≤◌, ◌<◌, length};
ghost use Rattle.std.specs.Counts.{IsPrefixLen};

use crate::line;
use std::fs::File;
use std::io;
use std::io::Read;
use std::rt::Files;

// Reads until the space is full, the file ends or a read fails, and answers how many bytes came. The memory is fixed, and `read_to_end` would need a Vec.
fn fill(file: &mut impl Read, space: &mut [u8]) -> usize
    ensures { IsPrefixLen result space.new }
{
    let mut done = 0;
    while done < space.len() {
        match file.read(&mut space[done..]) {
            Ok(0) | Err(_) => break,
            Ok(n) => done += n,
        }
    }
    done
}

// What a file holds, as far as the space goes; nothing where it cannot be opened or read.
fn load<'a>(rt: &impl Files, path: &str, space: &'a mut [u8]) -> &'a [u8]
    ensures { length result.now ≤ length space.old }
{
    let n = match File::open(rt, path) {
        Ok(mut file) => fill(&mut file, space),
        Err(_) => 0,
    };
    &space[..n]
}

// Prints the name of a file of figures, and of how many of its lines the fields agree, or that the file is missing.
// A line that is cut short counts as one that does not agree.
pub(crate) fn play<F: Fn([u8; 22]) -> bool>(
    rt: &(impl Files + Print),
    name: &str,
    path: &str,
    fields: usize,
    agrees: F,
) -> io::Result<()>
    requires width { (0 < fields) × (fields ≤ 22) }
    requires callable { F.IsAlwaysCallable agrees }
{
    print!(rt; "{name}")?;
    let mut space = [0u8; 131072];
    let text = load(rt, path, &mut space);
    if text.is_empty() {
        return println!(rt; " missing");
    }
    let width = 3 * fields;
    let lines = text.chunks(width).count();
    let agreeing = text
        .chunks(width)
        .filter(|text| line::is_whole(text, width) && agrees(line::fields(text, fields)))
        .count();
    println!(rt; " {agreeing} of {lines}")
}
