// Floor of a product over a divisor, through the 128-bit product of two words.
ghost use Rattle.std.specs.Prelude.{◌≡◌, ◌+◌, ◌*◌, ◌^◌, ◌≤◌, ◌<◌};
ghost use Rattle.types.specs.MulDiv.{Division, mul_div_of};

use crate::BASE;
use crate::wide::Wide;

// A quotient with its remainder.
#[derive(Clone, Copy, Debug, PartialEq, Eq)]
pub struct Divided {
    pub quotient: u64,
    pub remainder: u64,
}

impl Divided {
    // n over d.
    fn of(n: u64, d: u64) -> Divided
        requires { 0 < d }
        ensures { Division n d result.quotient result.remainder }
    {
        Divided {
            quotient: n / d,
            remainder: n % d,
        }
    }

    // The same where the quotient is seldom above 1: two comparisons take less than a division.
    fn of_near(n: u64, d: u64) -> Divided
        requires { 0 < d }
        ensures { Division n d result.quotient result.remainder }
    {
        if n < d {
            return Divided {
                quotient: 0,
                remainder: n,
            };
        }
        let over = n - d;
        if over < d {
            return Divided {
                quotient: 1,
                remainder: over,
            };
        }
        Divided::of(n, d)
    }
}

// x + y over d, for an x below d twice and a remainder y.
fn sum_over(x: u64, y: u64, d: u64) -> Divided
    requires { (x < 2 * d) × (y < d) }
    ensures { Division (x + y) d result.quotient result.remainder }
{
    let room = d - y;
    if x < room {
        return Divided {
            quotient: 0,
            remainder: x + y,
        };
    }
    let over = x - room;
    if over < d {
        Divided {
            quotient: 1,
            remainder: over,
        }
    } else {
        Divided {
            quotient: 2,
            remainder: over - d,
        }
    }
}

// One digit of long division in base 2^32: h * 2^32 + x over d, for a divisor of one digit. The long division stays as well,
// since document 01's list for the port has '`u128` becomes two words'. It is not one function with `digit_long`: for such
// a divisor e there is 1, so that s may be d twice or more. The bounds of h, x and d stand in three contracts: a struct of the
// three would be made for each digit and taken apart in the next function.
fn digit_short(h: u64, x: u64, d: u64) -> Divided
    requires { (h < d) × (x < 2 ^ 32) × (d < 2 ^ 32) }
    ensures { Division (h * 2 ^ 32 + x) d result.quotient result.remainder }
{
    Divided::of(h * BASE + x, d)
}

// The same for a longer divisor. With e the upper half of d, plus 1, the quotient of h by e is a
// first estimate that is never too large, and what it leaves is the sum of two words: s, which is
// below d twice, and t.
fn digit_long(h: u64, x: u64, d: u64) -> Divided
    requires { (h < d) × (x < 2 ^ 32) × (2 ^ 32 ≤ d) }
    ensures { Division (h * 2 ^ 32 + x) d result.quotient result.remainder }
{
    let e = d / BASE + 1;
    let q = h / e;
    let s = h % e * BASE + x;
    let t = q * (BASE - d % BASE);
    let more = Divided::of_near(t, d);
    let last = sum_over(s, more.remainder, d);
    let quotient = q + more.quotient + last.quotient;
    Divided {
        quotient,
        remainder: last.remainder,
    }
}

fn digit(h: u64, x: u64, d: u64) -> Divided
    requires { (h < d) × (x < 2 ^ 32) }
    ensures { Division (h * 2 ^ 32 + x) d result.quotient result.remainder }
{
    if d < BASE {
        digit_short(h, x, d)
    } else {
        digit_long(h, x, d)
    }
}

// hi * 2^64 + lo over d, where the quotient is one word.
fn divide(hi: u64, lo: u64, d: u64) -> Divided
    requires { hi < d }
    ensures { Division (hi * 2 ^ 64 + lo) d result.quotient result.remainder }
{
    let one = digit(hi, lo / BASE, d);
    let two = digit(one.remainder, lo % BASE, d);
    Divided {
        quotient: one.quotient * BASE + two.quotient,
        remainder: two.remainder,
    }
}

// a * b over d, for a b of at most d. Both are shifted until d has its highest bit: then no digit takes more than one division.
fn divide_shifted(a: u64, b: u64, d: u64) -> Divided
    requires { (b ≤ d) × (0 < d) }
    ensures { Division (a * b) d result.quotient result.remainder }
{
    let shift = d.leading_zeros();
    let Wide { hi, lo } = Wide::product(a, b << shift);
    let divided = divide(hi, lo, d << shift);
    Divided {
        quotient: divided.quotient,
        remainder: divided.remainder >> shift,
    }
}

// The floor of a * b over d, with its remainder, where the floor is a word.
#[tactic(auto, using(crate::proofs::MulDivLaws::divisions), unfolding(crate::specs::Wide::wide_of))]
fn mul_div_wide(a: u64, b: u64, d: u64) -> Option<Divided>
    ensures { result ≡ mul_div_of a b d }
{
    let Wide { hi, lo } = Wide::product(a, b);
    if d <= hi {
        return None;
    }
    if hi == 0 {
        return Some(Divided::of(lo, d));
    }
    if BASE <= d && b <= d {
        return Some(divide_shifted(a, b, d));
    }
    Some(divide(hi, lo, d))
}

// The same. Two factors of one digit each are the usual case, and take one product and one division.
#[tactic(auto, using(crate::proofs::MulDivLaws::short_at))]
pub fn mul_div(a: u64, b: u64, d: u64) -> Option<Divided>
    ensures { result ≡ mul_div_of a b d }
{
    if 0 < d && a < BASE && b < BASE {
        return Some(Divided::of(a * b, d));
    }
    mul_div_wide(a, b, d)
}
