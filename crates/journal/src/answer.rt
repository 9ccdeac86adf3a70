// Answers to lines.
ghost use Rattle.std.specs.Prelude.{◌≤◌};
ghost use Rattle.journal.specs.declared.output.TheConstants.{ROOM};

use crate::calls::{CALLS, Call};
use crate::fault::{Fault, Wrong};
use crate::names::Named;
use crate::output::Pen;
use positions::position::PositionState;
use std::fmt::{self, Write};
use types::refusals::Refusal;

// `ok` and the values.
pub fn ok(pen: &mut Pen, values: &[u64])
    ensures { pen.new.at ≤ ROOM }
{
    pen.text("ok");
    // By `number`: with `write!`, tried, an image of zeros takes 2.1 of its time, where no call may take more than 1.05 of what it took.
    for value in values {
        pen.byte(b' ');
        pen.number(*value);
    }
    pen.byte(b'\n');
}

// `ok` and a state's name.
pub fn state(pen: &mut Pen, state: PositionState)
    ensures { pen.new.at ≤ ROOM }
{
    // A pen takes all text, here and below.
    let _ = writeln!(pen, "ok {}", state.name());
}

// A refusal's number.
pub fn refused(pen: &mut Pen, refusal: Refusal)
    ensures { pen.new.at ≤ ROOM }
{
    let _ = writeln!(pen, "refused {}", u64::from(refusal));
}

// A call with its fields.
fn call_line(pen: &mut Pen, call: Call) -> fmt::Result {
    write!(pen, "  {}", call.name())?;
    for (field, _) in call.fields() {
        write!(pen, " {field}")?;
    }
    writeln!(pen)
}

// What `help` says of the answer.
fn answer_of(call: Call) -> &'static str {
    match call {
        Call::New | Call::Load | Call::Save => "the image's length",
        Call::Settings | Call::Fresh | Call::Add | Call::Remove | Call::Fee | Call::StakeAccount =>
            "no value",
        Call::Image => "every word of the image; with WORDS its length",
        Call::Nonzero => "I:W for each word W other than 0, I being its place",
        Call::Advance => "y', set aside, rows matched, rows seated, rows dropped",
        Call::Forecast => "set aside",
        Call::Payment => {
            "delegator's part, publisher's part, record's epoch, next index, read count, custody's fall"
        }
        Call::CreateSlashEvent => "the slash event's epoch",
        Call::Slash => "record's epoch, next index",
        Call::Show => "the number of lines that follow: the pool as a table",
        Call::State => "the position's state",
        Call::Split => "each client's part",
        Call::Help => "the number of lines that follow: every call, or CALL and its answer",
        Call::Quit => "no value; the run ends",
    }
}

// A call with its fields and its answer, or every call with its fields. The first line says how many follow.
pub fn help(pen: &mut Pen, call: Option<Call>)
    ensures { pen.new.at ≤ ROOM }
{
    let Some(call) = call else {
        ok(pen, &[CALLS.len() as u64]);
        for call in CALLS {
            let _ = call_line(pen, call);
        }
        return;
    };
    ok(pen, &[2]);
    let _ = call_line(pen, call);
    let _ = writeln!(pen, "  answer: {}", answer_of(call));
}

// A call's name and its field's, if it has one.
fn place(pen: &mut Pen, call: Call, field: Option<usize>) -> fmt::Result {
    write!(pen, "{}", call.name())?;
    if let Some(field) = field
        && let Some((name, _)) = call.fields().get(field)
    {
        write!(pen, " {name}")?;
    }
    write!(pen, ": ")
}

// A wrong line: its number, the call and the field where the line is at fault itself, and what is wrong with it.
pub fn wrong(pen: &mut Pen, line: u64, wrong: &Wrong)
    ensures { pen.new.at ≤ ROOM }
{
    let _ = write!(pen, "line {line}: ");
    if let Some(call) = wrong.call
        && wrong.fault != Fault::NoInput
    {
        let _ = place(pen, call, wrong.field);
    }
    let _ = writeln!(pen, "{}", wrong.fault);
}
