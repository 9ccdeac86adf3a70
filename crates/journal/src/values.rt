// Fields of one value.
ghost use Rattle.std.specs.Prelude.{◌≡◌};
ghost use Rattle.journal.specs.Values.{value_of};

use crate::calls::{Call, Kind, call_of};
use crate::fault::Fault;
use crate::states::state_of;
use positions::position::PositionState;

// What a field came to: one value, or that its bytes or its words stand by themselves.
#[derive(Clone, Copy, Debug, Default, PartialEq, Eq)]
pub enum Value {
    Number(u64),
    Key([u64; 4]),
    // `none` in place of a key.
    #[default]
    NoKey,
    State(PositionState),
    Call(Call),
    Bytes,
    List,
}

// A field of one value: a number, a state, a call, a key, or a key or none.
pub fn value_of(kind: Kind, s: &[u8]) -> Result<Value, Fault>
    ensures { result ≡ value_of kind s.now }
{
    match kind {
        Kind::Number => Ok(Value::Number(text::decimal(s)?)),
        Kind::State => Ok(Value::State(state_of(s).ok_or(Fault::NotState)?)),
        Kind::Call => Ok(Value::Call(call_of(s).ok_or(Fault::UnknownCall)?)),
        Kind::KeyOrNone if s == b"none".as_slice() => Ok(Value::NoKey),
        _ => Ok(Value::Key(text::key(s).ok_or(Fault::NotKey)?)),
    }
}
