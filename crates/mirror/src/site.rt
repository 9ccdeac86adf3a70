// What a run keeps of the pool, and the calls that lay it out.
ghost use Rattle.arrayvec.specs.ArrayVec.{array_vec_len};
ghost use Rattle.std.specs.Prelude.{◌≡◌, ◌≤◌, ◌+◌, ◌++◌, [], length, replicate, IfOk, OnErr};
ghost use Rattle.journal.specs.declared.fields.TheConstants.{WORDS_ROOM};
ghost use Rattle.mirror.specs.Site.{NextNonzero, with_image, with_settings, laid_out, SavedAs};

use crate::failure::Failure;
use arrayvec::ArrayVec;
use image::pool_data::PoolData;
use journal::fields::{Fields, WORDS_ROOM};
use std::process::Process;
use std::rt::Files;

// The image, one word more than the largest at most; P and E, and no `PoolData`, since `new` and `load` leave any of them, which each call checks; and
// the settings. A run has one, of 1.4 MB, which no call is to take a copy of, and nothing compares.
#[derive(Drop)]
pub struct Site {
    pub image: ArrayVec<u64, WORDS_ROOM>,
    pub p: usize,
    pub e: usize,
    pub epoch_duration: u64,
    pub unlocking_duration: u64,
}

// The zeros that are put at once.
const ZEROS: [u64; 512] = [0; 512];

// So many zero words more. An ArrayVec has no `resize`, and by `extend` with one after the other an image takes twice as long. All of them fit, by the
// requires.
fn add_zeros<const N: usize>(list: &mut ArrayVec<u64, N>, count: usize)
    requires { array_vec_len list.old + count ≤ N }
    ensures { list.new.items ≡ list.old.items ++ replicate count 0 }
{
    for _part in 0..count / 512 {
        let _ = list.try_extend_from_slice(&ZEROS);
    }
    let _ = list.try_extend_from_slice(&ZEROS[..count % 512]);
}

// A list becomes this many zero words. Those that it has are written over: `clear` writes each of them too.
pub fn set_zeros<const N: usize>(list: &mut ArrayVec<u64, N>, count: usize)
    requires { count ≤ N }
    ensures { list.new.items ≡ replicate count 0 }
{
    list.truncate(count);
    image::clear(list.as_mut_slice());
    add_zeros(list, count - list.len());
}

impl Site {
    // Before the first `new`.
    pub fn new() -> Self
        ensures { result.image.items ≡ [] }
    {
        Self {
            image: ArrayVec::new(),
            p: 0,
            e: 0,
            epoch_duration: 604800,
            unlocking_duration: 1,
        }
    }

    // The image's length, which the calls below answer.
    fn length(&self) -> u64
        ensures { result ≡ length self.now.image.items }
    {
        self.image.len() as u64
    }

    // new P E
    pub fn lay_out(&mut self, fields: &Fields) -> u64
        ensures site { self.new ≡ laid_out self.old fields.now.values.items }
        ensures answer { result ≡ length self.new.image.items }
    {
        self.p = fields.number(0) as usize;
        self.e = fields.number(1) as usize;
        set_zeros(&mut self.image, image::size(self.p, self.e));
        self.length()
    }

    // settings SECONDS UNLOCKING
    pub fn set(&mut self, fields: &Fields)
        ensures { self.new ≡ with_settings self.old fields.now.values.items }
    {
        self.epoch_duration = fields.number(0);
        self.unlocking_duration = fields.number(1);
    }

    // image WORDS
    pub fn take(&mut self, words: &[u64]) -> u64
        requires { length words.now ≤ WORDS_ROOM }
        ensures site { self.new ≡ with_image self.old words.now }
        ensures answer { result ≡ length words.now }
    {
        self.image.clear();
        let _ = self.image.try_extend_from_slice(words);
        self.length()
    }

    // load PATH. The words go to the fields' lists first: where the file can't be read the image stays.
    pub fn load(&mut self, rt: &impl Files, fields: &mut Fields) -> Result<u64, Failure>
        ensures refused { OnErr result (self.new ≡ self.old) }
        ensures rest { self.new ≡ with_image self.old self.new.image.items }
        ensures answer { IfOk result (λ count. count ≡ length self.new.image.items) }
    {
        let path = &fields.bytes[..fields.bytes_count];
        let count = files::load(rt, path, &mut fields.words)?;
        Ok(self.take(&fields.words[..count]))
    }

    // save PATH
    pub fn save(&self, rt: &impl Files, process: Process, fields: &Fields) -> Result<u64, Failure>
        ensures { SavedAs self.now result }
    {
        let image = self.image.as_slice();
        PoolData::check(image, self.p, self.e)?;
        files::save(rt, process, fields.bytes(), image)?;
        Ok(self.length())
    }
}

// The place of the next word other than 0, or the image's length, where a search from behind the last word ends too: an Option would be made of it.
pub fn next_nonzero(image: &[u64], from: usize) -> usize
    requires { from ≤ length image.now }
    ensures { NextNonzero image.now from result }
{
    let rest = &image[from..];
    from + rest
        .iter()
        .position(|word| *word != 0)
        .unwrap_or(rest.len())
}
