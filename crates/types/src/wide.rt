// Numbers of two words, as the Rust's u128: products and sums that may pass 64 bits.
ghost use Rattle.std.specs.Prelude.{◌≡◌, ◌+◌, ◌*◌, ◌^◌, ◌≤◌, ◌<◌};
ghost use Rattle.types.specs.Wide.{wide_of, fit_of};

use crate::BASE;

// A number of two words: hi * 2^64 + lo. It stays, since document 01's list for the port has '`u128` becomes two words'.
#[derive(Clone, Copy, Debug, Default, PartialEq, Eq)]
pub struct Wide {
    pub hi: u64,
    pub lo: u64,
}

impl Wide {
    // The whole product of two words, by halves of 32 bits.
    pub fn product(a: u64, b: u64) -> Wide
        ensures { wide_of result ≡ a * b }
    {
        let a1 = a / BASE;
        let a0 = a % BASE;
        let b1 = b / BASE;
        let b0 = b % BASE;
        let low = a0 * b0;
        let mid = a1 * b0 + low / BASE;
        let next = a0 * b1 + mid % BASE;
        Wide {
            hi: a1 * b1 + mid / BASE + next / BASE,
            lo: next % BASE * BASE + low % BASE,
        }
    }

    // A sum that may take more than a word, with one more number.
    #[tactic(auto, unfolding(crate::specs::Wide::wide_of))]
    pub fn plus(self, x: u64) -> Wide
        requires { self.hi < 2 ^ 32 }
        ensures { (wide_of result ≡ wide_of self + x) × (result.hi ≤ self.hi + 1) }
    {
        let (lo, carries) = self.lo.overflowing_add(x);
        Wide {
            hi: self.hi + u64::from(carries),
            lo,
        }
    }

    // self + k * b, where it is a word.
    #[tactic(auto, using(crate::proofs::WideLaws::sums), unfolding(crate::specs::Wide::wide_of))]
    pub fn plus_times(self, k: u64, b: Wide) -> Option<u64>
        ensures { result ≡ fit_of (wide_of self + k * wide_of b) }
    {
        if self.hi != 0 {
            return None;
        }
        if k == 0 {
            return Some(self.lo);
        }
        if b.hi != 0 {
            return None;
        }
        let more = Wide::product(k, b.lo);
        if more.hi != 0 {
            return None;
        }
        self.lo.checked_add(more.lo)
    }
}
