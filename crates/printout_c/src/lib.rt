// The calls of `printout`, under the names by which C and Rust link them.
#![tactic(auto)]

ghost use Rattle.std.specs.Prelude.{◌≡◌, length};
ghost use Rattle.play.specs.Text.{put_of};
ghost use Rattle.play.specs.Printout.{printout_of};

// The printout of any script, from the start of the buffer, and how long it is.
#[unsafe(no_mangle)]
pub extern "C" fn tirlwheel_play(script: &[u8], printout: &mut [u8; 65536]) -> usize
    ensures value { result ≡ length (printout_of script.now) }
    ensures printout_after { printout.new ≡ put_of printout.old 0 (printout_of script.now) }
{
    printout::tirlwheel_play(script, printout)
}
