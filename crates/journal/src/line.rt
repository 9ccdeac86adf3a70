// A line's call and its fields.
ghost use Rattle.std.specs.Prelude.{◌≡◌, true, IfOk};
ghost use Rattle.arrayvec.specs.ArrayVec.{array_vec_len};
ghost use Rattle.journal.specs.Calls.{whole_of};
ghost use Rattle.journal.specs.Fields.{cut_of, wrong_field};

use crate::calls::{Call, call_of};
use crate::fault::{Fault, Wrong};
use crate::fields::Fields;
use crate::input::{Input, Stop, ends};

// A line's call, and whether another line may follow: yes behind a line's end, no at the input's. An enum would say no more than `more`.
#[derive(Clone, Copy, Debug, PartialEq, Eq)]
pub struct Line {
    pub call: Call,
    pub more: bool,
}

// Whether a call may end after its first k fields.
fn cut(call: Call, k: usize) -> Result<(), Fault>
    ensures { result ≡ cut_of call k }
{
    if !call.is_whole(k) {
        return Err(Fault::TooFew);
    }
    Ok(())
}

// The place of the field that is wrong, of a line of which k fields were read; a field too many has no name.
pub fn wrong_field(fault: Fault, k: usize) -> Option<usize>
    ensures { result ≡ wrong_field fault k }
{
    match fault {
        Fault::TooMany => None,
        _ => Some(k),
    }
}

// Reads a call's name.
fn read_call(input: &mut Input) -> Result<Call, Fault> {
    let stop = input.next_item()?;
    if stop == Stop::TooLong {
        return Err(Fault::LongField);
    }
    call_of(input.item(stop)).ok_or(Fault::UnknownCall)
}

// Reads the fields of a call up to the line's end, and says whether a line may follow.
fn read_fields(call: Call, input: &mut Input, fields: &mut Fields) -> Result<bool, Fault>
    ensures { IfOk result (λ _. whole_of call (array_vec_len fields.new.values) ≡ true) }
{
    fields.clear();
    for (_, kind) in call.fields() {
        let byte = input.next_byte()?;
        if ends(byte) {
            cut(call, fields.count())?;
            return Ok(byte.is_some());
        }
        fields.read(input, *kind)?;
    }
    let byte = input.next_byte()?;
    if !ends(byte) {
        return Err(Fault::TooMany);
    }
    Ok(byte.is_some())
}

// Reads a line that begins with a call's name at hand.
pub fn read_line(input: &mut Input, fields: &mut Fields) -> Result<Line, Wrong>
    ensures { IfOk result (λ line. whole_of line.call (array_vec_len fields.new.values) ≡ true) }
{
    let call = read_call(input)?;
    let more = read_fields(call, input, fields).map_err(|fault| Wrong {
        call: Some(call),
        field: wrong_field(fault, fields.count()),
        fault,
    })?;
    Ok(Line { call, more })
}
