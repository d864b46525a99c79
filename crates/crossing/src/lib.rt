// How an answer crosses to C and Rust: every boundary hands it over so.
#![tactic(auto)]

ghost use Rattle.std.specs.Prelude.{◌≡◌};
ghost use Rattle.record.specs.Record.{record_of};
ghost use Rattle.crossing.specs.Crossing.{packed_with};

use card::Answer;

// An answer handed over: its session as a record, its reply, and number, sign and the NAK's value (0 where there is none) in one.
pub fn give<R: Copy>(a: Answer<R>, nak: u8, session: &mut [u8; 12], reply: &mut R) -> u32
    ensures value { result ≡ packed_with a.number a.sign nak }
    ensures session_after { session.new ≡ record_of a.session }
    ensures reply_after { reply.new ≡ a.reply }
{
    *session = record::encode(a.session);
    *reply = a.reply;
    card::packed(a.number, a.sign) + 65536 * u32::from(nak)
}
