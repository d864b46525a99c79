// Sums and differences of values: exact, or refused.
ghost use Rattle.std.specs.Prelude.{◌≡◌, ◌+◌, ◌%◌, ◌<◌};
ghost use Rattle.value.specs.Whole.{signed};
ghost use Rattle.value.specs.Sum.{is_negative, plus_of, minus_of};

// Why a sum is refused: its operand is below zero, or its result is outside the range of a value.
#[derive(Clone, Copy, PartialEq, Eq)]
pub enum SumError {
    Negative,
    Outside,
}

// The bits moved up by 2^31, so that their order is that of the values.
fn lifted(value: u32) -> u64
    ensures { result ≡ (value + 2147483648) % 4294967296 }
{
    (value as u64 + 2147483648) % 4294967296
}

// The bits of a number that was moved up so.
fn lowered(n: u64) -> u32
    requires { n < 4294967296 }
    ensures { result ≡ (n + 2147483648) % 4294967296 }
{
    ((n + 2147483648) % 4294967296) as u32
}

fn is_negative(operand: u32) -> bool
    ensures { result ≡ is_negative (signed operand) }
{
    2147483648 <= operand
}

// The result as its bits.
pub fn plus(value: u32, operand: u32) -> Result<u32, SumError>
    ensures { result ≡ plus_of value operand }
{
    if is_negative(operand) {
        return Err(SumError::Negative);
    }
    let sum = lifted(value) + operand as u64;
    if 4294967296 <= sum {
        return Err(SumError::Outside);
    }
    Ok(lowered(sum))
}

pub fn minus(value: u32, operand: u32) -> Result<u32, SumError>
    ensures { result ≡ minus_of value operand }
{
    if is_negative(operand) {
        return Err(SumError::Negative);
    }
    let from = lifted(value);
    let less = operand as u64;
    if from < less {
        return Err(SumError::Outside);
    }
    Ok(lowered(from - less))
}
