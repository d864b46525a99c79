// The calls of `evprint`, under the names by which C and Rust link them.
#![tactic(auto)]

ghost use Rattle.std.specs.Prelude.{◌≡◌, length};
ghost use Rattle.play.specs.Text.{put_of};
ghost use Rattle.play.specs.Printout.{ev1_printout_of};

// The printout of any script on an EV1, from the start of the buffer, and how long it is.
#[unsafe(no_mangle)]
pub extern "C" fn tirlwheel_play_ev1(script: &[u8], printout: &mut [u8; 65536]) -> usize
    ensures value { result ≡ length (ev1_printout_of script.now) }
    ensures printout_after { printout.new ≡ put_of printout.old 0 (ev1_printout_of script.now) }
{
    evprint::tirlwheel_play_ev1(script, printout)
}
