// Whether twelve bytes are a record, judged part by part, which is quicker than to write the session again and compare.
ghost use Rattle.std.specs.Prelude.{◌≡◌};
ghost use Rattle.record.specs.Record.{is_auth, is_stage, is_register, is_record};

// Nobody is in no sector; key A and key B may be in any.
fn is_auth(who: u8, sector: u8) -> bool
    ensures { result ≡ is_auth who sector }
{
    if who == 0 { sector == 0 } else { who < 3 }
}

// Where nothing is awaited there is no block; each of the four second frames may have any.
fn is_stage(code: u8, block: u8) -> bool
    ensures { result ≡ is_stage code block }
{
    if code == 0 { block == 0 } else { code < 5 }
}

// An empty register has neither address byte nor value; a full one may have any.
fn is_register(full: u8, address: u8, value: u32) -> bool
    ensures { result ≡ is_register full address value }
{
    if full == 0 {
        (address == 0) & (value == 0)
    } else {
        full == 1
    }
}

// Every test is made, and none waits for another: most bytes that come here pass them all.
pub(crate) fn is_record(bytes: [u8; 12]) -> bool
    ensures { result ≡ is_record bytes }
{
    let value = value::word(bytes[8], bytes[9], bytes[10], bytes[11]);
    is_auth(bytes[0], bytes[1])
        & is_stage(bytes[2], bytes[3])
        & is_register(bytes[4], bytes[5], value)
        & (bytes[6] == 0)
        & (bytes[7] == 0)
}
