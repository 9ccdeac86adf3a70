// The table's lines on seats: two for each that has a publisher.
ghost use Rattle.std.specs.Prelude.{◌≡◌, not, ◌≤◌, ◌<◌};
ghost use Rattle.image.specs.Pool.{words_of};
ghost use Rattle.image.specs.Seats.{empty_seat};
ghost use Rattle.journal.specs.declared.output.TheConstants.{ROOM};
ghost use Rattle.show.specs.Rows.{occupied_seats, seat_row};

use crate::cells::{ShortKey, signed};
use delegation::DelegationState;
use image::pool_data::PoolData;
use image::seats::SeatSide;
use journal::output::Pen;
use positions::Key;
use std::fmt;
use std::fmt::Write;

// What the two lines of a seat say.
#[derive(Clone, Copy, Debug, PartialEq, Eq)]
pub struct SeatRow {
    pub seat: usize,
    pub publisher: Key,
    pub self_side: DelegationState,
    pub other_side: DelegationState,
    pub fee: u64,
    pub slash_events: u64,
    pub stake_account: Key,
}

// A side's total and its change.
#[derive(Clone, Copy, Debug, PartialEq, Eq)]
struct Side(DelegationState);

impl fmt::Display for Side {
    ghost use Rattle.std.specs.Prelude.{Some};
    ghost use Rattle.show.specs.Rows.{side_text};

    ghost output = { λ side. Some (side_text side.0) };

    #[tactic(auto, using(crate::proofs::CellsLaws::column, crate::proofs::CellsLaws::signed_column), unfolding(crate::specs::Rows::side_text))]
    fn fmt<W: fmt::Write>(&self, f: &mut fmt::Formatter<W>) -> fmt::Result {
        let total = self.0.total_delegation.0;
        let change = signed(self.0.delta_delegation);
        write!(f, "{total:>20}  {change:>20}")
    }
}

// What a seat's first line says behind its side.
#[derive(Clone, Copy, Debug, PartialEq, Eq)]
struct Terms(SeatRow);

impl fmt::Display for Terms {
    ghost use Rattle.std.specs.Prelude.{Some};
    ghost use Rattle.show.specs.Rows.{terms_text};

    ghost output = { λ terms. Some (terms_text terms.0) };

    #[tactic(auto, using(crate::proofs::CellsLaws::column), unfolding(crate::specs::Rows::terms_text))]
    fn fmt<W: fmt::Write>(&self, f: &mut fmt::Formatter<W>) -> fmt::Result {
        let fee = self.0.fee;
        let slash_events = self.0.slash_events;
        let account = ShortKey(self.0.stake_account);
        write!(f, "{fee:>7}  {slash_events:>12}  {account}")
    }
}

impl fmt::Display for SeatRow {
    ghost use Rattle.std.specs.Prelude.{Some};
    ghost use Rattle.show.specs.Rows.{seat_lines};

    ghost output = { λ row. Some (seat_lines row) };

    #[tactic(auto, using(crate::proofs::CellsLaws::column), unfolding(crate::specs::Rows::seat_lines))]
    fn fmt<W: fmt::Write>(&self, f: &mut fmt::Formatter<W>) -> fmt::Result {
        let seat = self.seat;
        let publisher = ShortKey(self.publisher);
        let own = Side(self.self_side);
        let terms = Terms(*self);
        let other = Side(self.other_side);
        write!(
            f,
            "  {seat:>4}  {publisher}  self   {own}  {terms}\n                            other  {other}\n"
        )
    }
}

// Whether seat s has a publisher.
#[tactic(auto, unfolding(image::specs::Seats::empty_seat, positions::specs::Key::same_key))]
pub fn has_publisher(pool: PoolData<'_>, s: usize) -> bool
    requires { s < pool.p }
    ensures { result ≡ not (empty_seat (words_of pool.entry) s) }
{
    pool.publisher(s) != Key::default()
}

// How many seats have a publisher.
pub fn occupied(pool: PoolData<'_>) -> usize
    ensures count { result ≡ occupied_seats pool.entry.p (words_of pool.entry) }
    ensures within { result ≤ pool.entry.p }
{
    (0..pool.p).filter(|&s| has_publisher(pool, s)).count()
}

// What is shown of seat s.
pub fn seat_row(pool: PoolData<'_>, s: usize) -> SeatRow
    requires { s < pool.p }
    ensures { result ≡ seat_row (words_of pool.entry) s }
{
    SeatRow {
        seat: s,
        publisher: pool.publisher(s),
        self_side: pool.side(s, SeatSide::Own),
        other_side: pool.side(s, SeatSide::Other),
        fee: pool.delegation_fee(s),
        slash_events: pool.num_slash_events(s),
        stake_account: pool.publisher_stake_account(s),
    }
}

// The heading, and the lines of all seats.
pub(crate) fn rows(pool: PoolData<'_>, pen: &mut Pen) -> fmt::Result
    ensures { pen.new.at ≤ ROOM }
{
    pen.text("  seat  publisher           side                  total                change");
    pen.text("      fee  slash events  stake account\n");
    for s in 0..pool.p {
        if has_publisher(pool, s) {
            write!(pen, "{}", seat_row(pool, s))?;
        }
    }
    Ok(())
}
