// Plays the scripts of data/ one after the other: each name, and then the printout.
#![tactic(auto)]

ghost use Rattle.std.specs.Prelude.{◌≤◌, length};

use std::env::{Env, FillError};
use std::fs::File;
use std::io::Read;
use std::rt::Files;
use std::{io, str};

// Reads until the space is full, the file ends or a read fails, and hands back what came.
fn fill<'a>(file: &mut impl Read, space: &'a mut [u8]) -> &'a [u8]
    ensures { length result.now ≤ length space.old }
{
    let mut done = 0;
    while done < space.len() {
        match file.read(&mut space[done..]) {
            Ok(0) | Err(_) => break,
            Ok(n) => done += n,
        }
    }
    &space[..done]
}

// Reads a file into a space, and hands back what came; nothing where it cannot be opened, as where its path is not text.
fn load<'a>(rt: &impl Files, path: &[u8], space: &'a mut [u8]) -> &'a [u8]
    ensures { length result.now ≤ length space.old }
{
    let Ok(path) = str::from_utf8(path) else {
        return &[];
    };
    match File::open(rt, path) {
        Ok(mut file) => fill(&mut file, space),
        Err(_) => &[],
    }
}

// The name without its ending of seven bytes.
fn print_name(rt: &impl Print, path: &[u8]) -> io::Result<()> {
    rt.write_all(b"== ")?;
    if let Some(end) = path.len().checked_sub(7) {
        rt.write_all(&path[..end])?;
    }
    rt.write_all(b"\n")
}

fn play(rt: &(impl Files + Print), path: &[u8]) -> io::Result<()> {
    print_name(rt, path)?;
    let mut space = [0u8; 23101];
    let mut out = [0u8; 65536];
    let length = play::play(load(rt, path, &mut space), &mut out);
    rt.write_all(&out[..length])
}

// Plays the script that an argument names, and answers whether there is that argument. One of more than 64 bytes counts as empty.
fn play_named(rt: &(impl Env + Files + Print), i: usize) -> io::Result<bool> {
    let mut name = [0u8; 64];
    let n = match rt.arg(i, &mut name) {
        Ok(n) => n,
        Err(FillError::TooLong) => 0,
        Err(FillError::NotPresent) => return Ok(false),
    };
    play(rt, &name[..n])?;
    Ok(true)
}

fn main(rt: HostRuntime) -> io::Result<()> {
    for i in 1..usize::MAX {
        if !play_named(&rt, i)? {
            break;
        }
    }
    Ok(())
}
