// Caps messages, publisher-caps/src/lib.rs: byte 0 a type byte, 1 to 8 the publish time, 9 to 10 the row count, from 11 on rows of a
// 32-byte key and an 8-byte cap, all big-endian.
#![tactic(auto)]

ghost use Rattle.std.specs.Prelude.{◌≡◌, ◌+◌, ◌-◌, ◌*◌, ◌/◌, ◌%◌, ◌^◌, ◌≤◌, ◌<◌, true, ◌&&◌, ltb, length, take, drop, IfSome};
ghost use Rattle.std.specs.Option.{unwrap_or};
ghost use Rattle.std.specs.Simd.{first_chunks};
ghost use Rattle.publisher_caps.specs.Key.{big_endian, number_of, number_by};
ghost use Rattle.publisher_caps.specs.Message.{time_of, rows_of, row_of, key_at, ascends, none_zero, message_holds, Whole};
ghost use Rattle.publisher_caps.specs.Lookup.{lookup, AboveFront, BelowRest, Encloses, cap_in};

use crate::key::KeyNumber;
use positions::Key;
use types::refusals::Refusal;

mod key;

// The most rows that a message has.
pub const MAX_CAPS: usize = 1024;

// A row: the key's words as the image holds them, and the cap.
#[derive(Clone, Copy, Debug, PartialEq, Eq)]
pub struct PublisherCap {
    pub pubkey: Key,
    pub cap: u64,
}

// A message that has been checked, and how many rows it has.
#[derive(Clone, Copy, Debug, PartialEq, Eq)]
pub struct PublisherCaps<'a> {
    pub message: &'a [u8],
    pub rows: usize,
    pub ghost whole: { Whole message.now },
    pub ghost counted: { rows ≡ rows_of message.now },
}

// The bytes from `at` on.
fn bytes<const N: usize>(m: &[u8], at: usize) -> [u8; N]
    requires positive { 0 < N }
    requires room { at + N ≤ length m.now }
    ensures { result ≡ take N (drop at m.now) }
{
    m[at..at + N].as_chunks().0[0]
}

// Eight bytes as a big-endian number.
#[tactic(auto, using(crate::proofs::KeyLaws::big_word))]
fn be64(m: &[u8], at: usize) -> u64
    requires { at + 8 ≤ length m.now }
    ensures { result ≡ big_endian m.now at 8 }
{
    u64::from_be_bytes(bytes(m, at))
}

// The first `rows` rows, 40 bytes each.
#[tactic(auto, using(crate::proofs::RowLaws::rows_taken))]
fn rows_in(m: &[u8], rows: usize) -> &[[u8; 40]]
    requires { 11 + rows * 40 ≤ length m.now }
    ensures rows { result.now ≡ first_chunks 40 rows (drop 11 m.now) }
    ensures count { length result.now ≡ rows }
{
    m[11..11 + rows * 40].as_chunks().0
}

// A row's key.
#[tactic(auto, using(crate::proofs::KeyLaws::four))]
fn key_number(row: &[u8; 40]) -> KeyNumber
    ensures { number_by result ≡ big_endian row.now 0 32 }
{
    KeyNumber(be64(row, 0), be64(row, 8), be64(row, 16), be64(row, 24))
}

// Whether a row's key is above that of the row before, whose first words are known. Where these tell it, the others are not read: with whole keys,
// tried, the check of a message of 1,024 rows takes 2.5 times as long.
#[tactic(auto, using(crate::proofs::KeyLaws::first_above, crate::proofs::KeyLaws::lt_number))]
fn rises(before: &[u8; 40], before_first: u64, row: &[u8; 40], first: u64) -> bool
    requires before { before_first ≡ big_endian before.now 0 8 }
    requires row { first ≡ big_endian row.now 0 8 }
    ensures { result ≡ ltb (big_endian before.now 0 32) (big_endian row.now 0 32) }
{
    before_first < first || key_number(before) < key_number(row)
}

// Whether the keys of the first `rows` rows ascend strictly and none is zero: each is above the one before it, the first above zero.
#[tactic(auto, using(crate::proofs::RowLaws::zero_row, crate::proofs::RowLaws::key_not_above, crate::proofs::RowLaws::climbs_all))]
fn ascending(m: &[u8], rows: usize) -> bool
    requires { 11 + rows * 40 ≤ length m.now }
    ensures { result ≡ (ascends m.now rows && none_zero m.now rows) }
{
    let mut before = &[0; 40];
    let mut before_first = 0;
    for row in rows_in(m, rows) {
        let first = be64(row, 0);
        if !rises(before, before_first, row, first) {
            return false;
        }
        before = row;
        before_first = first;
    }
    true
}

// The publish time, a signed word: from 2^63 on it is negative. Free, as the row count is: both take any message
// of 11 bytes, and as methods alone they would ask for one that has been checked.
#[tactic(auto, unfolding(crate::specs::Message::time_of))]
pub fn publish_time(m: &[u8]) -> u64
    requires { 11 ≤ length m.now }
    ensures { result ≡ time_of m.now }
{
    be64(m, 1)
}

// How many rows a message says that it has.
#[tactic(auto, using(crate::proofs::MessageLaws::count_bytes))]
pub fn num_publishers(m: &[u8]) -> usize
    requires { 11 ≤ length m.now }
    ensures { result ≡ rows_of m.now }
{
    u16::from_be_bytes(bytes(m, 9)) as usize
}

// Whether a message is as it should be: its length, its row count, and its keys.
#[tactic(auto, using(crate::proofs::MessageLaws::checks))]
pub fn checked(m: &[u8]) -> bool
    ensures { result ≡ message_holds m.now }
{
    if m.len() < 11 || 40_971 < m.len() {
        return false;
    }
    let rows = num_publishers(m);
    rows <= MAX_CAPS && 11 + rows * 40 <= m.len() && ascending(m, rows)
}

// In which of so many equal parts of all keys a key is, by its first two bytes. The bounds of `parts` stand in three contracts: a type of such a number
// would be made for each of the callers' `ENTRIES - 1`, which their own invariants bound.
fn part_of(first: u16, parts: usize) -> usize
    requires parts_low { 0 < parts }
    requires parts_high { parts ≤ 4096 }
    ensures part { result ≡ first * parts / 2 ^ 16 }
    ensures below { result < parts }
{
    first as usize * parts / 0x1_0000
}

// The part of a key of the image.
pub fn key_part(key: Key, parts: usize) -> usize
    requires parts_low { 0 < parts }
    requires parts_high { parts ≤ 4096 }
    ensures part { result ≡ (key.0 % 256 * 256 + key.0 / 256 % 256) * parts / 2 ^ 16 }
    ensures below { result < parts }
{
    part_of(((key.0 % 0x1_0000) as u16).swap_bytes(), parts)
}

impl<'a> PublisherCaps<'a> {
    ghost use Rattle.publisher_caps.specs.Caps.{Checked};

    // A message that is as it should be, or refusal 3.
    #[tactic(auto, using(crate::proofs::MessageLaws::holds_whole))]
    pub fn check(message: &'a [u8]) -> Result<PublisherCaps<'a>, Refusal>
        ensures { Checked message.now result }
    {
        if !checked(message) {
            return Err(Refusal::InvalidPublisherCaps);
        }
        let rows = num_publishers(message);
        Ok(PublisherCaps { message, rows })
    }

    // The publish time, a signed word.
    pub fn publish_time(&self) -> u64
        ensures { result ≡ time_of self.now.message.now }
    {
        publish_time(self.message)
    }

    // How many rows there are.
    pub fn num_publishers(&self) -> usize
        ensures { result ≡ rows_of self.now.message.now }
    {
        self.rows
    }

    // The bytes of row i, which each function that takes a row asks to be one of them, as a slice asks it of an index.
    fn row(&self, i: usize) -> &'a [u8; 40]
        requires { i < self.now.rows }
        ensures { result.now ≡ take 40 (drop (11 + i * 40) self.now.message.now) }
    {
        &rows_in(self.message, self.rows)[i]
    }

    // Row i.
    pub fn get_cap(&self, i: usize) -> PublisherCap
        requires { i < self.now.rows }
        ensures { result ≡ row_of self.now.message.now i }
    {
        let row = self.row(i);
        PublisherCap {
            pubkey: Key(
                u64::from_le_bytes(bytes(row, 0)),
                u64::from_le_bytes(bytes(row, 8)),
                u64::from_le_bytes(bytes(row, 16)),
                u64::from_le_bytes(bytes(row, 24)),
            ),
            cap: be64(row, 32),
        }
    }

    // The cap of a row that was found, 0 for none.
    #[tactic(auto, using(crate::proofs::RowLaws::row_cap_at))]
    pub fn cap(&self, found: Option<usize>) -> u64
        requires { IfSome found (λ i. i < self.now.rows) }
        ensures { result ≡ cap_in self.now.message.now found }
    {
        match found {
            Some(i) => be64(self.row(i), 32),
            None => 0,
        }
    }

    // In which of so many equal parts of all keys the key of row i is.
    pub fn row_part(&self, i: usize, parts: usize) -> usize
        requires row { i < self.now.rows }
        requires parts_low { 0 < parts }
        requires parts_high { parts ≤ 4096 }
        ensures part { result ≡ big_endian self.now.message.now (11 + i * 40) 2 * parts / 2 ^ 16 }
        ensures below { result < parts }
    {
        part_of(u16::from_be_bytes(bytes(self.row(i), 0)), parts)
    }

    // The key of row i.
    #[tactic(auto, using(crate::proofs::RowLaws::row_key_at))]
    fn key(&self, i: usize) -> KeyNumber
        requires { i < self.now.rows }
        ensures { number_by result ≡ key_at self.now.message.now i }
    {
        key_number(self.row(i))
    }

    // The row of a key among `rows` rows from `from` on, MAX_CAPS for none: of an Option, tried, the compiler makes no loop of these
    // calls, which takes 1.25 of the time, where no call may take more than 1.05 of what it took. The rows are halved until the key
    // is met or none remain, by recursion: that is document 01's form, and the library's binary search is not.
    fn search(&self, from: usize, rows: usize, wanted: &KeyNumber) -> usize
        requires { from + rows ≤ self.now.rows }
        ensures { result ≡ unwrap_or (lookup self.now.message.now (number_by wanted.now) from rows) MAX_CAPS }
    {
        if rows == 0 {
            return MAX_CAPS;
        }
        let half = rows / 2;
        let middle = from + half;
        let key = *wanted;
        let found = self.key(middle);
        if key == found {
            return middle;
        }
        if key < found {
            return self.search(from, half, wanted);
        }
        self.search(middle + 1, rows - half - 1, wanted)
    }

    // True only where keys with this first word are above those of the rows in front of `low`.
    #[tactic(auto, using(crate::proofs::LookupLaws::above_front))]
    fn above_front(&self, low: usize, first: u64) -> bool
        requires { low ≤ self.now.rows }
        ensures { result ≡ true → AboveFront self.now.message.now low first }
    {
        low == 0 || self.key(low - 1).0 < first
    }

    // True only where they are below those of the rows from `high` on.
    #[tactic(auto, using(crate::proofs::LookupLaws::below_rest))]
    fn below_rest(&self, high: usize, first: u64) -> bool
        requires { high ≤ self.now.rows }
        ensures { result ≡ true → BelowRest self.now.message.now high first }
    {
        high == self.rows || first < self.key(high).0
    }

    // True only where a key with this first word stands in the rows from `low` up to `high`, if in any.
    fn encloses(&self, low: usize, high: usize, first: u64) -> bool
        ensures { result ≡ true → Encloses self.now.message.now low high first }
    {
        low <= high
            && high <= self.rows
            && self.above_front(low, first)
            && self.below_rest(high, first)
    }

    // The row of a key among all rows, MAX_CAPS for none as `search` answers. The search begins with the rows from `low` up to `high` where the key
    // can stand nowhere else, and with all rows otherwise.
    #[inline(always)]
    fn search_from(&self, low: usize, high: usize, key: KeyNumber) -> usize
        ensures { result ≡ unwrap_or (lookup self.now.message.now (number_by key) 0 self.now.rows) MAX_CAPS }
    {
        if self.encloses(low, high, key.0) {
            return self.search(low, high - low, &key);
        }
        self.search(0, self.rows, &key)
    }

    // The row of a key. A guess that it stands from `low` up to `high` makes it faster where it is right. It is asked once for each seat, and put where
    // it is asked: as a call, with that of `eligible_at_seat`, a forecast takes up to 1.3 of its time.
    #[inline(always)]
    #[tactic(auto, using(crate::proofs::LookupLaws::none_told))]
    pub fn find(&self, low: usize, high: usize, key: Key) -> Option<usize>
        ensures { result ≡ lookup self.now.message.now (number_of key) 0 self.now.rows }
    {
        let row = self.search_from(low, high, key.into());
        if row == MAX_CAPS {
            return None;
        }
        Some(row)
    }
}
