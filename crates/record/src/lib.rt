// The session as a record of twelve bytes, there and back, for callers that cannot hold an enum.
#![tactic(auto)]

ghost use Rattle.std.specs.Prelude.{◌≡◌};
ghost use Rattle.record.specs.Record.{record_of, named_by, found_in};

mod codes;
mod judged;
mod named;

use session::Session;

// The record of a session.
pub fn encode(s: Session) -> [u8; 12]
    ensures { result ≡ record_of s }
{
    let who = codes::who_code(s.auth);
    let sector = codes::sector_byte(s.auth);
    let code = codes::stage_code(s.stage);
    let block = codes::block_byte(s.stage);
    let full = codes::full_code(s.register);
    let address = codes::address_byte(s.register);
    let value = value::four(codes::value_bits(s.register));
    [
        who, sector, code, block, full, address, 0, 0, value[0], value[1], value[2], value[3],
    ]
}

// The session that twelve bytes name, whether or not they are a record.
fn named_by(bytes: [u8; 12]) -> Session
    ensures { result ≡ named_by bytes }
{
    let auth = named::auth_by(bytes[0], bytes[1]);
    let stage = named::stage_by(bytes[2], bytes[3]);
    let value = value::word(bytes[8], bytes[9], bytes[10], bytes[11]);
    let register = named::register_by(bytes[4], bytes[5], value);
    Session {
        auth,
        stage,
        register,
    }
}

// The session of a record; any other twelve bytes hold none.
pub fn decode(bytes: [u8; 12]) -> Option<Session>
    ensures { result ≡ found_in bytes }
{
    if judged::is_record(bytes) {
        Some(named_by(bytes))
    } else {
        None
    }
}
