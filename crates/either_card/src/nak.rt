// The value of an EV1's NAK.
ghost use Rattle.std.specs.Prelude.{◌≡◌};
ghost use Rattle.either_card.specs.Nak.{value_of, nak_of};

use card::Sign;
use edition::Edition;

fn value_of(register: Option<(u32, u8)>, unsealed: bool) -> u8
    ensures { result ≡ value_of register unsealed }
{
    match (register, unsealed) {
        (Some(_), false) => 0,
        (Some(_), true) => 1,
        (None, false) => 4,
        (None, true) => 5,
    }
}

pub(crate) fn nak_of(edition: Edition, register: Option<(u32, u8)>, sign: Sign, number: u8) -> u8
    ensures { result ≡ nak_of edition register sign number }
{
    match edition {
        Edition::Ev1 => match sign {
            Sign::Nak => value_of(register, number == 14),
            Sign::Ack => 0,
            Sign::Data => 0,
            Sign::Nothing => 0,
        },
        Edition::Old => 0,
    }
}
