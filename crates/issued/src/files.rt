// The files: read, their records counted, and those that agree. All records of a file have the same length.
ghost use Rattle.std.specs.Prelude.{◌≤◌, ◌<◌, length};
ghost use Rattle.std.specs.Counts.{IsPrefixLen};

use std::fs::File;
use std::io;
use std::io::Read;
use std::rt::Files;

// Reads until the space is full, the file ends or a read fails, and answers how many bytes came.
// Other programs have the same: a library's public functions must each have one result (.ci/one-result), and one that reads has none.
fn fill(file: &mut impl Read, space: &mut [u8]) -> usize
    ensures { IsPrefixLen result space.new }
{
    let mut done = 0;
    while done < space.len() {
        match file.read(&mut space[done..]) {
            Ok(0) | Err(_) => break,
            Ok(n) => done += n,
        }
    }
    done
}

// What a file holds, as far as the space goes; nothing where it cannot be opened or read.
fn load<'a>(rt: &impl Files, name: &str, space: &'a mut [u8]) -> &'a [u8]
    ensures { length result.now ≤ length space.old }
{
    let n = match File::open(rt, name) {
        Ok(mut file) => fill(&mut file, space),
        Err(_) => 0,
    };
    &space[..n]
}

// Prints a file's name, how many of its records of a width agree, and how many there are. A file that is missing has none, and a record that is cut short counts as
// one that does not agree.
pub(crate) fn play<F: Fn(&[u8]) -> bool>(
    rt: &(impl Files + Print),
    name: &str,
    width: usize,
    agrees: F,
) -> io::Result<()>
    requires { (0 < width) × F.IsAlwaysCallable agrees }
{
    let mut space = [0u8; 32768];
    let file = load(rt, name, &mut space);
    let records = file.len().div_ceil(width);
    let agreeing = file
        .chunks_exact(width)
        .filter(|record| agrees(*record))
        .count();
    println!(rt; "{name} {agreeing} of {records}")
}
