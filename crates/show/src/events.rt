// The table's lines on the newest events, the newest first.
ghost use Rattle.std.specs.Prelude.{◌≡◌, ◌≤◌};
ghost use Rattle.image.specs.Pool.{words_of};
ghost use Rattle.journal.specs.declared.output.TheConstants.{ROOM};
ghost use Rattle.show.specs.Rows.{event_row};

use event_walk::newest;
use image::pool_data::PoolData;
use journal::output::Pen;
use std::fmt;
use std::fmt::Write;

// What an event's line says.
#[derive(Clone, Copy, Debug, PartialEq, Eq)]
pub struct EventRow {
    pub event: u64,
    pub slot: usize,
    pub epoch: u64,
    pub y: u64,
}

impl fmt::Display for EventRow {
    ghost use Rattle.std.specs.Prelude.{Some};
    ghost use Rattle.show.specs.Rows.{event_line};

    ghost output = { λ row. Some (event_line row) };

    #[tactic(auto, using(crate::proofs::CellsLaws::column), unfolding(crate::specs::Rows::event_line))]
    fn fmt<W: fmt::Write>(&self, f: &mut fmt::Formatter<W>) -> fmt::Result {
        let EventRow {
            event,
            slot,
            epoch,
            y,
        } = *self;
        // Not `writeln!`, here and in the seats' lines: its line end is a part of its own, for which the output's definition would have one more.
        write!(f, "  {event:>20}  {slot:>20}  {epoch:>20}  {y:>20}\n")
    }
}

// What is shown of an event by its number.
pub fn event_row(pool: PoolData<'_>, event: u64) -> EventRow
    ensures { result ≡ event_row pool.entry.e (words_of pool.entry) event }
{
    let slot = (event % pool.e as u64) as usize;
    EventRow {
        event,
        slot,
        epoch: pool.event_epoch(slot),
        y: pool.event_y(slot),
    }
}

// The heading, and the lines of the newest events, at most e.
pub(crate) fn rows(pool: PoolData<'_>, pen: &mut Pen) -> fmt::Result
    ensures { pen.new.at ≤ ROOM }
{
    pen.text("                 event                  slot");
    pen.text("                 epoch                     y\n");
    let newest = newest::walk_length(pool);
    for event in (0..pool.num_events()).rev().take(newest) {
        write!(pen, "{}", event_row(pool, event))?;
    }
    Ok(())
}
