// The rows of the caps message and the seats: each seat's cap, the rows that are matched, and how many of the others find a seat.
ghost use Rattle.std.specs.Prelude.{◌≡◌, ◌≤◌};
ghost use Rattle.types.specs.BoolArray.{marked_rows};
ghost use Rattle.publisher_caps.specs.Key.{number_of};
ghost use Rattle.publisher_caps.specs.Lookup.{lookup};
ghost use Rattle.image.specs.Pool.{words_of};
ghost use Rattle.advance_plan.specs.Rows.{Matched, counts_of};

use crate::table::SeatTable;
use image::pool_data::PoolData;
use positions::Key;
use publisher_caps::{PublisherCaps, key_part};
use types::bool_array::BoolArray;

// Rows marked as matched, rows that take a seat, and rows that find none.
#[derive(Clone, Copy, Debug, PartialEq, Eq)]
pub struct RowCounts {
    pub matched: u64,
    pub seated: u64,
    pub dropped: u64,
}

// All keys are divided into equal parts, one fewer than there are entries. An entry is the first row of its part, or of a later one. Nothing is
// proved of the entries: where one is wrong, a row is only found later. It has no `Clone` and no `Copy`, so that no call takes a copy of its 4 KB.
#[derive(Debug, PartialEq, Eq, Drop)]
struct Index<const ENTRIES: usize> {
    first_rows: [u16; ENTRIES],
    ghost some: { 2 ≤ ENTRIES },
    ghost few: { ENTRIES ≤ 4096 },
}

impl<const ENTRIES: usize> Index<ENTRIES> {
    // How many rows are in each part, in the entry behind the part's.
    fn counted(caps: PublisherCaps<'_>) -> Index<ENTRIES>
        requires some { 2 ≤ ENTRIES }
        requires few { ENTRIES ≤ 4096 }
    {
        let mut first_rows = [0u16; ENTRIES];
        for i in 0..caps.rows {
            let next = caps.row_part(i, ENTRIES - 1) + 1;
            first_rows[next] = first_rows[next].wrapping_add(1);
        }
        Index { first_rows }
    }

    // Each entry becomes the sum up to it.
    fn sum(&mut self) {
        let mut sum: u16 = 0;
        for entry in &mut self.first_rows {
            sum = sum.wrapping_add(*entry);
            *entry = sum;
        }
    }

    // The row of a key. The search begins with the rows of its part.
    fn find(&self, caps: PublisherCaps<'_>, key: Key) -> Option<usize>
        ensures { result ≡ lookup caps.entry.message.now (number_of key) 0 caps.entry.rows }
    {
        let part = key_part(key, ENTRIES - 1);
        let low = usize::from(self.first_rows[part]);
        let high = usize::from(self.first_rows[part + 1]);
        caps.find(low, high, key)
    }
}

// The caps of the first seats, and the marks of the rows of their keys, found by an index of so many entries.
#[tactic(auto, using(crate::proofs::RowLaws::matched_none))]
fn match_by<const ENTRIES: usize, const P: usize>(
    pool: PoolData<'_>,
    caps: PublisherCaps<'_>,
    seats: usize,
    table: &mut SeatTable<P>,
) -> BoolArray
    requires some { 2 ≤ ENTRIES }
    requires few { ENTRIES ≤ 4096 }
    requires seats { seats ≤ pool.p }
    requires room { pool.p ≤ P }
    ensures matched { Matched (words_of pool.entry) caps.entry.message.now seats table.new.caps result.words }
    ensures first { table.new.first_shares ≡ table.old.first_shares }
    ensures later { table.new.later_shares ≡ table.old.later_shares }
{
    let mut index: Index<ENTRIES> = Index::counted(caps);
    index.sum();
    let mut marks = BoolArray::new();
    for s in 0..seats {
        let found = index.find(caps, pool.publisher(s));
        if let Some(row) = found {
            marks.set(row);
        }
        table.caps[s] = caps.cap(found);
    }
    marks
}

// The same by an index with at least two parts for each row, so that most parts have one row at most; a longer one would take longer to clear.
pub fn match_rows<const P: usize>(
    pool: PoolData<'_>,
    caps: PublisherCaps<'_>,
    seats: usize,
    table: &mut SeatTable<P>,
) -> BoolArray
    requires seats { seats ≤ pool.p }
    requires room { pool.p ≤ P }
    ensures matched { Matched (words_of pool.entry) caps.entry.message.now seats table.new.caps result.words }
    ensures first { table.new.first_shares ≡ table.old.first_shares }
    ensures later { table.new.later_shares ≡ table.old.later_shares }
{
    match caps.rows {
        0..=16 => match_by::<33, P>(pool, caps, seats, table),
        17..=64 => match_by::<129, P>(pool, caps, seats, table),
        65..=256 => match_by::<513, P>(pool, caps, seats, table),
        _ => match_by::<2049, P>(pool, caps, seats, table),
    }
}

// Of the unmatched rows as many are seated as seats are left, the others dropped.
#[tactic(auto, unfolding(crate::specs::Rows::counts_of))]
pub fn row_counts(marks: BoolArray, rows: usize, left: usize) -> RowCounts
    requires { marked_rows marks.words ≤ rows }
    ensures { result ≡ counts_of (marked_rows marks.words) rows left }
{
    let matched = marks.count();
    let unmatched = rows - matched;
    RowCounts {
        matched: matched as u64,
        seated: unmatched.min(left) as u64,
        dropped: unmatched.saturating_sub(left) as u64,
    }
}
