// The fields of a call, read from a line.
ghost use Rattle.std.specs.Prelude.{◌≡◌, ◌+◌, ◌<◌, ◌≤◌, ◌++◌, ◌∷◌, [], true, length, replicate, slice_range, IfOk, OnOk};
ghost use Rattle.arrayvec.specs.ArrayVec.{array_vec_len};
ghost use Rattle.journal.specs.Fields.{MessageRead, PathRead, ListRead, OneMore, room_of, unended_of};
ghost use Rattle.journal.specs.declared.fields.TheConstants.{BYTES_ROOM, WORDS_ROOM};
ghost use Rattle.journal.specs.Values.{value_of, told_of, number_at, key_at, state_at, call_at};

use crate::calls::{Call, Kind, MOST_FIELDS};
use crate::fault::Fault;
use crate::input::{Input, Over, Stop};
use crate::values::{Value, value_of};
use arrayvec::ArrayVec;
use positions::position::PositionState;
use text::items;
use text::items::WordError;

// The bytes of a message, one more than the library accepts; or of a path.
pub const BYTES_ROOM: usize = 40972;

// The words of an image, one more than the largest has.
pub const WORDS_ROOM: usize = 174552;

// The words of a position list: 257 positions, one more than the library accepts.
pub const POSITIONS_ROOM: usize = 2313;

// 65 weights, one more than the library accepts.
const WEIGHTS_ROOM: usize = 65;

// A message in hexadecimal digits; `-` is the empty one. How many bytes it has.
pub fn message(s: &[u8], bytes: &mut [u8]) -> Result<usize, Fault>
    ensures { MessageRead s.now bytes.old bytes.new result }
{
    if s == b"-".as_slice() {
        return Ok(0);
    }
    text::bytes(s, bytes).ok_or(Fault::NotMessage)
}

// A path, as it stands. How many bytes it has.
pub fn path(s: &[u8], bytes: &mut [u8]) -> Result<usize, Fault>
    ensures { PathRead s.now bytes.old bytes.new result }
{
    let count = s.len();
    if bytes.len() < count {
        return Err(Fault::LongPath);
    }
    bytes[..count].copy_from_slice(s);
    Ok(count)
}

// Whether an item is wrong by what ended it: of a message that the buffer can't hold the rest is passed over.
pub fn unended(kind: Kind, stop: Stop) -> Result<(), Fault>
    ensures { result ≡ unended_of kind stop }
{
    if stop == Stop::TooLong && kind != Kind::Message {
        return Err(Fault::LongField);
    }
    Ok(())
}

// A word list, or a part of one: where it is whole, `-` is the empty one. How many words it has. `whole` is a `bool`, since one contract, ListRead,
// says of both what is read, and of a part that it grows: two functions would each have to say it.
fn list(s: &[u8], whole: bool, out: &mut [u64]) -> Result<usize, WordError>
    ensures { ListRead whole s.now out.old out.new result }
{
    if whole {
        return items::list(s, out);
    }
    items::words(s, out)
}

// How many words of a list were read, and whether more of it follows: a yes or no beside a count that both have, where an enum would name the count twice.
#[derive(Clone, Copy, Debug, PartialEq, Eq)]
struct Part {
    count: usize,
    more: bool,
}

// The part of a word list that begins at hand: all of it, or what the buffer holds, up to its last comma. `first` says whether the list begins with it,
// and is handed on as `whole`.
fn read_part(input: &mut Input, first: bool, out: &mut [u64]) -> Result<Part, Fault>
    requires { 0 < length out.old }
    ensures fits { IfOk result (λ part. part.count ≤ length out.old) }
    ensures grows { IfOk result (λ part. part.more ≡ true → 0 < part.count) }
{
    let stop = input.next_item()?;
    let item = input.item(stop);
    if stop != Stop::TooLong {
        let count = list(item, first, out)?;
        return Ok(Part { count, more: false });
    }
    let last = items::last(item, b',').ok_or(Fault::LongField)?;
    let count = list(&item[..last], false, out)?;
    input.cut_item(last);
    Ok(Part { count, more: true })
}

// A word list, part by part, as far as it has room; the rest is passed over. How many words it has.
pub fn words(input: &mut Input, out: &mut [u64]) -> Result<usize, Fault>
    ensures { IfOk result (λ count. count ≤ length out.old) }
{
    let mut count = 0;
    // A `while`, since how far it goes depends on how many words each part has.
    while count < out.len() {
        let next = read_part(input, count == 0, &mut out[count..])?;
        count += next.count;
        if !next.more {
            return Ok(count);
        }
    }
    input.pass_over(Over::Item)?;
    Ok(count)
}

// The room for a list, of what is left: positions and weights have their own.
pub fn room(kind: Kind, left: usize) -> usize
    ensures room { result ≡ room_of kind left }
    ensures within { result ≤ left }
{
    match kind {
        Kind::Positions => left.min(POSITIONS_ROOM),
        Kind::Weights => left.min(WEIGHTS_ROOM),
        _ => left,
    }
}

// What a line's fields came to: their values in order, the bytes of a message or a path, and the words of the lists, the last of which begins at `list`.
// Bytes and words stand in arrays with their counts, since the readers of `text` write into a slice that has room, which an ArrayVec does not lend.
// It derives nothing else: a run has one, of 1.4 MB, which no call is to take a copy of, and nothing compares.
#[derive(Drop)]
pub struct Fields {
    pub values: ArrayVec<Value, MOST_FIELDS>,
    pub bytes: [u8; BYTES_ROOM],
    pub bytes_count: usize,
    pub words: [u64; WORDS_ROOM],
    pub list: usize,
    pub words_count: usize,
    ghost bytes_within: { bytes_count ≤ BYTES_ROOM },
    ghost list_before: { list ≤ words_count },
    ghost words_within: { words_count ≤ WORDS_ROOM },
}

impl Fields {
    pub fn new() -> Self
        ensures values { result.values.items ≡ [] }
        ensures bytes { result.bytes ≡ replicate BYTES_ROOM 0 }
        ensures bytes_count { result.bytes_count ≡ 0 }
        ensures words { result.words ≡ replicate WORDS_ROOM 0 }
        ensures list { result.list ≡ 0 }
        ensures words_count { result.words_count ≡ 0 }
    {
        Self {
            values: ArrayVec::new(),
            bytes: [0; BYTES_ROOM],
            bytes_count: 0,
            words: [0; WORDS_ROOM],
            list: 0,
            words_count: 0,
        }
    }

    // No field is read.
    pub fn clear(&mut self)
        ensures values { self.new.values.items ≡ [] }
        ensures bytes { self.new.bytes ≡ self.old.bytes }
        ensures bytes_count { self.new.bytes_count ≡ 0 }
        ensures words { self.new.words ≡ self.old.words }
        ensures list { self.new.list ≡ 0 }
        ensures words_count { self.new.words_count ≡ 0 }
    {
        self.values.clear();
        self.bytes_count = 0;
        self.list = 0;
        self.words_count = 0;
    }

    // How many fields were read.
    pub fn count(&self) -> usize
        ensures { result ≡ array_vec_len self.now.values }
    {
        self.values.len()
    }

    // The number of field k, 0 where it is none, as the definition has it: a line that was read has one wherever its call asks for one. It and the
    // three below have a `match` each: one generic would be given the same as a closure, and more.
    pub fn number(&self, k: usize) -> u64
        ensures { result ≡ number_at self.now.values.items k }
    {
        match self.values.get(k) {
            Some(Value::Number(number)) => *number,
            _ => 0,
        }
    }

    // The key of field k, if it is one.
    pub fn key(&self, k: usize) -> Option<[u64; 4]>
        ensures { result ≡ key_at self.now.values.items k }
    {
        match self.values.get(k) {
            Some(Value::Key(key)) => Some(*key),
            _ => None,
        }
    }

    // The state of field k, UNLOCKED where it is none, as with a number.
    pub fn state(&self, k: usize) -> PositionState
        ensures { result ≡ state_at self.now.values.items k }
    {
        match self.values.get(k) {
            Some(Value::State(state)) => *state,
            _ => PositionState::UNLOCKED,
        }
    }

    // The call of field k, if it is one.
    pub fn call(&self, k: usize) -> Option<Call>
        ensures { result ≡ call_at self.now.values.items k }
    {
        match self.values.get(k) {
            Some(Value::Call(call)) => Some(*call),
            _ => None,
        }
    }

    // The message's bytes, or the path's.
    pub fn bytes(&self) -> &[u8]
        ensures { result.now ≡ slice_range self.now.bytes 0 self.now.bytes_count }
    {
        &self.bytes[..self.bytes_count]
    }

    // The words of the list before the last one.
    pub fn first_list(&self) -> &[u64]
        ensures { result.now ≡ slice_range self.now.words 0 self.now.list }
    {
        &self.words[..self.list]
    }

    // The words of the last list.
    pub fn last_list(&self) -> &[u64]
        ensures { result.now ≡ slice_range self.now.words self.now.list self.now.words_count }
    {
        &self.words[self.list..self.words_count]
    }

    // One field more, of one value. That it has room is asked here and in the four below, for `push`: `try_push` would need a fault that no line can have.
    fn store_value(&mut self, kind: Kind, item: &[u8]) -> Result<(), Fault>
        requires { array_vec_len self.old.values < MOST_FIELDS }
        ensures told { result ≡ told_of (value_of kind item.now) }
        ensures value { IfOk (value_of kind item.now) (λ value. self.new.values.items ≡ self.old.values.items ++ value ∷ []) }
    {
        self.values.push(value_of(kind, item)?);
        Ok(())
    }

    // One field more, of one item.
    fn store(&mut self, kind: Kind, item: &[u8]) -> Result<(), Fault>
        requires { array_vec_len self.old.values < MOST_FIELDS }
        ensures { OnOk result (OneMore self.old.values.items self.new.values.items) }
    {
        match kind {
            Kind::Message => self.bytes_count = message(item, &mut self.bytes)?,
            Kind::Path => self.bytes_count = path(item, &mut self.bytes)?,
            _ => return self.store_value(kind, item),
        }
        self.values.push(Value::Bytes);
        Ok(())
    }

    // Reads one field more, of one item.
    fn read_item(&mut self, input: &mut Input, kind: Kind) -> Result<(), Fault>
        requires { array_vec_len self.old.values < MOST_FIELDS }
        ensures { OnOk result (OneMore self.old.values.items self.new.values.items) }
    {
        let stop = input.next_item()?;
        unended(kind, stop)?;
        self.store(kind, input.item(stop))?;
        if stop == Stop::TooLong {
            // A read that fails here is made again for what is behind the item, and told if that fails too.
            let _ = input.pass_over(Over::Item);
        }
        Ok(())
    }

    // Reads one field more, a list that goes behind those before it.
    fn read_list(&mut self, input: &mut Input, kind: Kind) -> Result<(), Fault>
        requires { array_vec_len self.old.values < MOST_FIELDS }
        ensures { OnOk result (OneMore self.old.values.items self.new.values.items) }
    {
        let from = self.words_count;
        let to = from + room(kind, WORDS_ROOM - from);
        let count = words(input, &mut self.words[from..to])?;
        self.list = from;
        self.words_count = from + count;
        self.values.push(Value::List);
        Ok(())
    }

    // Reads one field more.
    pub fn read(&mut self, input: &mut Input, kind: Kind) -> Result<(), Fault>
        requires { array_vec_len self.old.values < MOST_FIELDS }
        ensures { OnOk result (OneMore self.old.values.items self.new.values.items) }
    {
        match kind {
            Kind::Positions | Kind::Weights | Kind::Words => self.read_list(input, kind),
            _ => self.read_item(input, kind),
        }
    }
}
