// The EV1's script player: standard input in, the printout out. Nothing is decided here.
// What it has in common with `player` stands in both: a library's public functions must each have one result (.ci/one-result), and one that reads has none.
#![tactic(auto)]

ghost use Rattle.std.specs.Prelude.{◌≤◌, length};

use std::io;
use std::io::Read;

// Reads until the space is full, the input ends or a read fails, and hands back what came.
fn fill<'a>(input: &mut impl Read, space: &'a mut [u8]) -> &'a [u8]
    ensures { length result.now ≤ length space.old }
{
    let mut done = 0;
    while done < space.len() {
        match input.read(&mut space[done..]) {
            Ok(0) | Err(_) => break,
            Ok(n) => done += n,
        }
    }
    &space[..done]
}

fn main(rt: HostRuntime) -> io::Result<()> {
    // One byte more than the longest lawful script of an EV1, so that a longer one is seen to be too long.
    let mut space = [0u8; 23103];
    let mut out = [0u8; 65536];
    let length = play::play_ev1(fill(&mut rt.stdin(), &mut space), &mut out);
    rt.write_all(&out[..length])
}
