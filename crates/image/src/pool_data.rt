// A pool's words with its numbers of seats and events: the Rust's PoolData, lent to be read or to be written.
ghost use Rattle.std.specs.Prelude.{◌≡◌};
ghost use Rattle.image.specs.Seats.{Sized, checked_image};

use types::refusals::Refusal;

// A pool that is read. That s is one of its seats, or t one of its slots, is asked by each function that takes both, as a slice asks it of an index:
// a struct of both would be made anew for each turn of a loop, and could not stand while the pool is written.
#[derive(Clone, Copy, Debug, PartialEq, Eq)]
pub struct PoolData<'a> {
    pub words: &'a [u64],
    // How many seats there are, and how many events the ring keeps.
    pub p: usize,
    pub e: usize,
    pub ghost sized: { Sized words.now p e },
}

// A pool that is written. It has no `==`, since in Rattle a `&mut` has none, and no copy.
#[derive(Debug, Drop)]
pub struct PoolDataMut<'a> {
    pub words: &'a mut [u64],
    pub p: usize,
    pub e: usize,
    pub ghost sized: { Sized words.now p e },
}

impl<'a> PoolData<'a> {
    ghost use Rattle.image.specs.Pool.{Lent};

    // A pool of the right size with an event count below 2^63, or refusal 1.
    #[tactic(auto, using(crate::proofs::SeatLaws::checked_sized))]
    pub fn check(words: &'a [u64], p: usize, e: usize) -> Result<PoolData<'a>, Refusal>
        ensures { Lent p e words.now result }
    {
        if !crate::checked(words, p, e) {
            return Err(Refusal::InvalidImage);
        }
        Ok(PoolData { words, p, e })
    }
}

impl<'a> PoolDataMut<'a> {
    ghost use Rattle.image.specs.Pool.{LentMut};

    // A pool that has been checked, to be written. There is no `check` of words to be written: where it refused, its contract could not say that
    // they are as before, since a `&mut` that may have gone into the result has no last value when the function returns.
    pub fn new(words: &'a mut [u64], p: usize, e: usize) -> PoolDataMut<'a>
        requires { Sized words.old p e }
        ensures { LentMut p e words.entry result }
    {
        PoolDataMut { words, p, e }
    }

    // The pool to be read.
    pub fn read(&self) -> PoolData<'_>
        ensures words { result.words.now ≡ self.now.words.now }
        ensures p { result.p ≡ self.now.p }
        ensures e { result.e ≡ self.now.e }
    {
        PoolData {
            words: &self.words[..],
            p: self.p,
            e: self.e,
        }
    }
}
