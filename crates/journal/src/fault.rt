// What can be wrong with a line.
ghost use Rattle.std.specs.Prelude.{◌≡◌};
ghost use Rattle.journal.specs.Faults.{number_fault, word_fault};

use crate::calls::Call;
use text::NumberError;
use text::items::WordError;
use thiserror::Error;

#[derive(Clone, Copy, Debug, PartialEq, Eq, Error)]
pub enum Fault {
    #[error("an unknown call")]
    UnknownCall,
    #[error("a field too few")]
    TooFew,
    #[error("a field too many")]
    TooMany,
    #[error("not a number")]
    NotNumber,
    #[error("a number too large")]
    LargeNumber,
    #[error("not a message")]
    NotMessage,
    #[error("a path too long")]
    LongPath,
    #[error("a field too long")]
    LongField,
    #[error("the input can't be read")]
    NoInput,
    #[error("the file can't be read")]
    NoFile,
    #[error("the file can't be written")]
    CannotWrite,
    #[error("the folder can't be written through")]
    FolderUnwritten,
    #[error("not a key")]
    NotKey,
    #[error("not a state")]
    NotState,
    #[error("an account without its owner")]
    NoOwner,
    #[error("no account, but its fields")]
    NoAccount,
}

impl From<NumberError> for Fault {
    ghost from_gives = { λ error fault. fault ≡ number_fault error };

    fn from(error: NumberError) -> Fault {
        match error {
            NumberError::NoDigits | NumberError::NotDigit => Fault::NotNumber,
            NumberError::TooLarge => Fault::LargeNumber,
        }
    }
}

impl From<WordError> for Fault {
    ghost from_gives = { λ error fault. fault ≡ word_fault error };

    fn from(error: WordError) -> Fault {
        match error {
            WordError::NotWord => Fault::NotNumber,
            WordError::LargeWord => Fault::LargeNumber,
            WordError::NotKey => Fault::NotKey,
        }
    }
}

// What is wrong with a line, and where: its call, if it has one, and the place of the field among the call's.
#[derive(Clone, Copy, Debug, PartialEq, Eq)]
pub struct Wrong {
    pub call: Option<Call>,
    pub field: Option<usize>,
    pub fault: Fault,
}

// A fault where no call is read.
impl From<Fault> for Wrong {
    ghost use Rattle.std.specs.Prelude.{None};

    ghost from_gives = { λ fault wrong. wrong ≡ record { call = None; field = None; fault = fault } };

    fn from(fault: Fault) -> Wrong {
        Wrong {
            call: None,
            field: None,
            fault,
        }
    }
}
