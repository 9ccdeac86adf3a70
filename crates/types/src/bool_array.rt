// A mark for each of up to 1,024 rows.
ghost use Rattle.std.specs.Prelude.{◌≡◌, replicate};
ghost use Rattle.types.specs.BoolArray.{marked, with_mark, marked_rows};

// The Rust's BoolArray, its Vec of bytes a fixed array of words.
#[derive(Clone, Copy, Debug, PartialEq, Eq)]
pub struct BoolArray {
    pub words: [u64; 16],
}

impl BoolArray {
    pub fn new() -> BoolArray
        ensures { result.words ≡ replicate 16 0 }
    {
        BoolArray { words: [0; 16] }
    }

    // Whether row i is marked.
    #[tactic(auto, using(crate::proofs::BoolArrayLaws::marks))]
    pub fn get(&self, i: usize) -> bool
        ensures { result ≡ marked self.now.words i }
    {
        if 1024 <= i {
            return false;
        }
        (self.words[i / 64] >> (i % 64)) % 2 == 1
    }

    // Marks row i.
    #[tactic(auto, using(crate::proofs::BoolArrayLaws::marks))]
    pub fn set(&mut self, i: usize)
        ensures { self.new.words ≡ with_mark self.old.words i }
    {
        if i < 1024 {
            self.words[i / 64] |= 1u64 << (i % 64);
        }
    }

    // How many rows are marked: the ones, counted over the mark words.
    #[tactic(auto, using(crate::proofs::BoolArrayLaws::rows))]
    pub fn count(&self) -> usize
        ensures { result ≡ marked_rows self.now.words }
    {
        // A loop. Tried: the proof of a sum over `iter()` does not close, since it does not know that each word fits.
        let mut count = 0;
        for w in &self.words {
            count += w.count_ones() as usize;
        }
        count
    }
}
