// Why a line isn't answered with `ok`, and the fields of a stake account's change that can't stand together.
ghost use Rattle.std.specs.Prelude.{◌≡◌, length};
ghost use Rattle.mirror.specs.Accounts.{owner_fault, positions_fault, accounts_fault};
ghost use Rattle.mirror.specs.Site.{first_list_of, list_of};

use crate::args::key_or_none;
use files::{LoadError, SaveError};
use journal::fault::Fault;
use journal::fields::Fields;
use positions::Key;
use types::refusals::Refusal;

// What is wrong with the field at a place among the call's.
#[derive(Clone, Copy, Debug, PartialEq, Eq)]
pub struct FieldFault {
    pub field: usize,
    pub fault: Fault,
}

// The call is refused, or the line is wrong.
#[derive(Clone, Copy, Debug, PartialEq, Eq)]
pub enum Failure {
    Refused(Refusal),
    Wrong(FieldFault),
}

impl From<Refusal> for Failure {
    ghost use Rattle.mirror.specs.declared.failure.Failure.TheVariants.{Refused};

    ghost from_gives = { λ refusal failure. failure ≡ Refused refusal };

    fn from(refusal: Refusal) -> Failure {
        Failure::Refused(refusal)
    }
}

impl From<FieldFault> for Failure {
    ghost use Rattle.mirror.specs.declared.failure.Failure.TheVariants.{Wrong};

    ghost from_gives = { λ fault failure. failure ≡ Wrong fault };

    fn from(fault: FieldFault) -> Failure {
        Failure::Wrong(fault)
    }
}

// A path is its call's first field.
impl From<LoadError> for Failure {
    ghost use Rattle.mirror.specs.Accounts.{load_failure};

    ghost from_gives = { λ error failure. failure ≡ load_failure error };

    fn from(error: LoadError) -> Failure {
        match error {
            LoadError::NotWhole => Failure::Refused(Refusal::InvalidImage),
            LoadError::CannotRead => Failure::Wrong(FieldFault {
                field: 0,
                fault: Fault::NoFile,
            }),
        }
    }
}

impl From<SaveError> for Failure {
    ghost use Rattle.mirror.specs.Accounts.{save_failure};

    ghost from_gives = { λ error failure. failure ≡ save_failure error };

    fn from(error: SaveError) -> Failure {
        let fault = match error {
            SaveError::CannotWrite => Fault::CannotWrite,
            SaveError::FolderUnwritten => Fault::FolderUnwritten,
        };
        Failure::Wrong(FieldFault { field: 0, fault })
    }
}

// An account that is there has its owner, and an absent one has none.
fn check_owner(account: Option<Key>, owner: Option<Key>) -> Result<(), Fault>
    ensures { result ≡ owner_fault account owner }
{
    match (account, owner) {
        (Some(_), None) => Err(Fault::NoOwner),
        (None, Some(_)) => Err(Fault::NoAccount),
        _ => Ok(()),
    }
}

// An absent account has no positions.
fn check_positions(account: Option<Key>, positions: &[u64]) -> Result<(), Fault>
    ensures { result ≡ positions_fault account (length positions.now) }
{
    if account.is_none() && !positions.is_empty() {
        return Err(Fault::NoAccount);
    }
    Ok(())
}

// The old account's owner and positions, and the new one's positions, whose owner is not asked for.
pub fn check_accounts(fields: &Fields) -> Result<(), FieldFault>
    ensures { result ≡ accounts_fault fields.now.values.items (length (first_list_of fields.now)) (length (list_of fields.now)) }
{
    let old = key_or_none(fields, 3);
    let new = key_or_none(fields, 6);
    check_owner(old, key_or_none(fields, 4)).map_err(|fault| FieldFault { field: 4, fault })?;
    check_positions(old, fields.first_list()).map_err(|fault| FieldFault { field: 5, fault })?;
    check_positions(new, fields.last_list()).map_err(|fault| FieldFault { field: 7, fault })
}
