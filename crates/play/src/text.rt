// Text put into a buffer, one after the other.
ghost use Rattle.std.specs.Prelude.{◌≡◌, ◌+◌, ◌/◌, ◌%◌, ◌≤◌, ◌<◌, length};
ghost use Rattle.play.specs.Text.{digit, decimal_of, hex_digit, hex_of};

// A buffer, and the place in it where the next text is put.
#[derive(Drop)]
pub(crate) struct Printer<'a> {
    pub(crate) out: &'a mut [u8],
    pub(crate) at: usize,
}

// The last decimal digit of a number.
fn digit_of(n: usize) -> u8
    ensures { result ≡ digit n }
{
    48 + (n % 10) as u8
}

#[tactic(auto, unfolding(crate::specs::Text::hex_digit))]
fn hex_digit(n: u8) -> u8
    requires { n < 16 }
    ensures { result ≡ hex_digit n }
{
    if n < 10 {
        return 48 + n;
    }
    55 + n
}

fn high_digit(b: u8) -> u8
    ensures { result ≡ hex_digit (b / 16) }
{
    hex_digit(b / 16)
}

pub(crate) fn low_digit(b: u8) -> u8
    ensures { result ≡ hex_digit (b % 16) }
{
    hex_digit(b % 16)
}

impl Printer<'_> {
    ghost use Rattle.play.specs.Puts.{Puts};

    pub(crate) fn put(&mut self, text: &[u8])
        requires { self.old.at + length text.now ≤ length self.old.out.now }
        ensures { Puts self.old text.now self.new }
    {
        let end = self.at + text.len();
        self.out[self.at..end].copy_from_slice(text);
        self.at = end;
    }

    #[tactic(auto, unfolding(crate::specs::Text::decimal_of))]
    pub(crate) fn decimal(&mut self, n: usize)
        requires { self.old.at + 4 ≤ length self.old.out.now }
        ensures puts { Puts self.old (decimal_of n) self.new }
        ensures upper_bound { self.new.at ≤ self.old.at + 4 }
    {
        if n < 10 {
            return self.put(&[digit_of(n)]);
        }
        if n < 100 {
            return self.put(&[digit_of(n / 10), digit_of(n)]);
        }
        if n < 1000 {
            return self.put(&[digit_of(n / 100), digit_of(n / 10), digit_of(n)]);
        }
        self.put(&[
            digit_of(n / 1000),
            digit_of(n / 100),
            digit_of(n / 10),
            digit_of(n),
        ])
    }

    // Sixteen bytes in hexadecimal. Both digits are put by one call: stored one by one they cost the players more instructions.
    pub(crate) fn hex(&mut self, bytes: [u8; 16])
        requires { self.old.at + 32 ≤ length self.old.out.now }
        ensures puts { Puts self.old (hex_of bytes) self.new }
        ensures value { self.new.at ≡ self.old.at + 32 }
    {
        for b in bytes {
            self.put(&[high_digit(b), low_digit(b)]);
        }
    }
}
