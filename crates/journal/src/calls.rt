// The calls: their names, their fields, and what they answer.
ghost use Rattle.std.specs.Prelude.{◌≡◌, ◌≤◌, length};
ghost use Rattle.journal.specs.Calls.{call_name, call_of, fields_as, fields_of, kind_of, whole_of};

use crate::names::{Named, with_name};

// A field's kind.
#[derive(Clone, Copy, Debug, PartialEq, Eq)]
pub enum Kind {
    Number,
    Key,
    KeyOrNone,
    State,
    Message,
    Path,
    Positions,
    Weights,
    Words,
    Call,
}

#[derive(Clone, Copy, Debug, PartialEq, Eq)]
pub enum Call {
    New,
    Settings,
    Image,
    Nonzero,
    Load,
    Save,
    Fresh,
    Advance,
    Forecast,
    Payment,
    Add,
    Remove,
    CreateSlashEvent,
    Slash,
    Fee,
    StakeAccount,
    Show,
    State,
    Split,
    Help,
    Quit,
}

// The calls in the order of `help`.
pub const CALLS: [Call; 21] = [
    Call::New,
    Call::Settings,
    Call::Image,
    Call::Nonzero,
    Call::Load,
    Call::Save,
    Call::Fresh,
    Call::Advance,
    Call::Forecast,
    Call::Payment,
    Call::Add,
    Call::Remove,
    Call::CreateSlashEvent,
    Call::Slash,
    Call::Fee,
    Call::StakeAccount,
    Call::Show,
    Call::State,
    Call::Split,
    Call::Help,
    Call::Quit,
];

// A call has at most so many fields.
pub const MOST_FIELDS: usize = 9;

impl Named for Call {
    ghost name_of = { call_name };

    fn name(self) -> &'static str {
        match self {
            Call::New => "new",
            Call::Settings => "settings",
            Call::Image => "image",
            Call::Nonzero => "nonzero",
            Call::Load => "load",
            Call::Save => "save",
            Call::Fresh => "fresh",
            Call::Advance => "advance",
            Call::Forecast => "forecast",
            Call::Payment => "payment",
            Call::Add => "add",
            Call::Remove => "remove",
            Call::CreateSlashEvent => "create-slash-event",
            Call::Slash => "slash",
            Call::Fee => "fee",
            Call::StakeAccount => "stake-account",
            Call::Show => "show",
            Call::State => "state",
            Call::Split => "split",
            Call::Help => "help",
            Call::Quit => "quit",
        }
    }
}

// The call of a name.
pub fn call_of(name: &[u8]) -> Option<Call>
    ensures { result ≡ call_of name.now }
{
    with_name(&CALLS, name)
}

// The fields of the calls that have more than two, each with its name; first those that an advance and a forecast share.
const EPOCH_FIELDS: [(&str, Kind); 5] = [
    ("NOW", Kind::Number),
    ("Y", Kind::Number),
    ("CUSTODY", Kind::Number),
    ("VERIFIED", Kind::Number),
    ("CAPS", Kind::Message),
];

const PAYMENT_FIELDS: [(&str, Kind); 8] = [
    ("NOW", Kind::Number),
    ("PUBLISHER", Kind::Key),
    ("ACCOUNT", Kind::Key),
    ("RECORD_EPOCH", Kind::Number),
    ("NEXT_INDEX", Kind::Number),
    ("PUBLISHER_ACCOUNT", Kind::KeyOrNone),
    ("CUSTODY_FLAG", Kind::Number),
    ("POSITIONS", Kind::Positions),
];

const ADD_FIELDS: [(&str, Kind); 4] = [
    ("NOW", Kind::Number),
    ("PUBLISHER", Kind::Key),
    ("ACCOUNT", Kind::Key),
    ("AMOUNT", Kind::Number),
];

const REMOVE_FIELDS: [(&str, Kind); 5] = [
    ("NOW", Kind::Number),
    ("PUBLISHER", Kind::Key),
    ("ACCOUNT", Kind::Key),
    ("AMOUNT", Kind::Number),
    ("STATE", Kind::State),
];

const CREATE_SLASH_EVENT_FIELDS: [(&str, Kind); 3] = [
    ("NOW", Kind::Number),
    ("PUBLISHER", Kind::Key),
    ("INDEX", Kind::Number),
];

const SLASH_FIELDS: [(&str, Kind); 9] = [
    ("NOW", Kind::Number),
    ("PUBLISHER", Kind::Key),
    ("ACCOUNT", Kind::Key),
    ("RECORD_EPOCH", Kind::Number),
    ("NEXT_INDEX", Kind::Number),
    ("INDEX", Kind::Number),
    ("EVENT_EPOCH", Kind::Number),
    ("LOCKED", Kind::Number),
    ("PREUNLOCKING", Kind::Number),
];

const STAKE_ACCOUNT_FIELDS: [(&str, Kind); 8] = [
    ("PUBLISHER", Kind::Key),
    ("SIGNER", Kind::Key),
    ("AUTHORITY", Kind::Key),
    ("OLD", Kind::KeyOrNone),
    ("OLD_OWNER", Kind::KeyOrNone),
    ("OLD_POSITIONS", Kind::Positions),
    ("NEW", Kind::KeyOrNone),
    ("NEW_POSITIONS", Kind::Positions),
];

impl Call {
    // The fields in order, each with its name.
    pub fn fields(self) -> &'static [(&'static str, Kind)]
        ensures fields { fields_as result.now ≡ fields_of self }
        ensures few { length result.now ≤ MOST_FIELDS }
    {
        match self {
            Call::New => &[("P", Kind::Number), ("E", Kind::Number)],
            Call::Settings => &[("SECONDS", Kind::Number), ("UNLOCKING", Kind::Number)],
            Call::Image => &[("WORDS", Kind::Words)],
            Call::Nonzero => &[],
            Call::Load => &[("PATH", Kind::Path)],
            Call::Save => &[("PATH", Kind::Path)],
            Call::Fresh => &[("EPOCH", Kind::Number)],
            Call::Advance | Call::Forecast => &EPOCH_FIELDS,
            Call::Payment => &PAYMENT_FIELDS,
            Call::Add => &ADD_FIELDS,
            Call::Remove => &REMOVE_FIELDS,
            Call::CreateSlashEvent => &CREATE_SLASH_EVENT_FIELDS,
            Call::Slash => &SLASH_FIELDS,
            Call::Fee => &[("FEE", Kind::Number)],
            Call::StakeAccount => &STAKE_ACCOUNT_FIELDS,
            Call::Show => &[],
            Call::State => &[("EPOCH", Kind::Number), ("POSITION", Kind::Positions)],
            Call::Split => &[("REWARD", Kind::Number), ("WEIGHTS", Kind::Weights)],
            Call::Help => &[("CALL", Kind::Call)],
            Call::Quit => &[],
        }
    }

    // The kind of field k, if there is one.
    pub fn kind(self, k: usize) -> Option<Kind>
        ensures { result ≡ kind_of self k }
    {
        let (_, kind) = self.fields().get(k)?;
        Some(*kind)
    }

    // Whether the call with its first k fields is whole.
    pub fn is_whole(self, k: usize) -> bool
        ensures { result ≡ whole_of self k }
    {
        matches!(self.kind(k), None | Some(Kind::Call | Kind::Words))
    }
}
