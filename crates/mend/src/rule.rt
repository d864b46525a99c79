// The rule for sixteen bytes: what most of the readings say.
ghost use Rattle.std.specs.Prelude.{◌≡◌};
ghost use Rattle.mend.specs.Rule.{two_agree, majority_of_three, three_agree, majority_of_four, majority_rule, mended_of};

fn two_agree(a: u32, b: u32, c: u32) -> bool
    ensures { result ≡ two_agree a b c }
{
    (a == b) | (a == c) | (b == c)
}

// What two of three say.
#[tactic(auto, unfolding(crate::specs::Rule::majority_of_three))]
fn majority_of_three(a: u32, b: u32, c: u32) -> u32
    ensures { result ≡ majority_of_three a b c }
{
    if b == c {
        return b;
    }
    a
}

fn three_agree(p: u8, q: u8, r: u8, s: u8) -> bool
    ensures { result ≡ three_agree p q r s }
{
    ((p == q) & (p == r)) | ((p == q) & (p == s)) | ((p == r) & (p == s)) | ((q == r) & (q == s))
}

// What three of four say.
fn majority_of_four(p: u8, q: u8, r: u8, s: u8) -> u8
    ensures { result ≡ majority_of_four p q r s }
{
    if (q == r) & (q == s) {
        return q;
    }
    p
}

// Three readings of the value and four of the address byte.
fn ruled(a: u32, b: u32, c: u32, p: u8, q: u8, r: u8, s: u8) -> Option<(u32, u8)>
    ensures { result ≡ majority_rule a b c p q r s }
{
    let value = majority_of_three(a, b, c);
    let address = majority_of_four(p, q, r, s);
    let agreed = two_agree(a, b, c) & three_agree(p, q, r, s);
    if agreed {
        return Some((value, address));
    }
    None
}

// What sixteen bytes are mended to: a value, as its bits, and an address byte; none where there is no majority.
#[tactic(auto, unfolding(crate::specs::Rule::mended_of))]
pub fn majority_of(block: [u8; 16]) -> Option<(u32, u8)>
    ensures { result ≡ mended_of block }
{
    let a = value::word(block[0], block[1], block[2], block[3]);
    let b = !value::word(block[4], block[5], block[6], block[7]);
    let c = value::word(block[8], block[9], block[10], block[11]);
    let q = !block[13];
    let s = !block[15];
    ruled(a, b, c, block[12], q, block[14], s)
}
