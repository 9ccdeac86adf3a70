// The calls that change stakes, fees and stake accounts.
ghost use Rattle.std.specs.Prelude.{◌≡◌};
ghost use Rattle.types.specs.Base.{outcome_of, outcome_by};
ghost use Rattle.types.specs.Base.{acceptance};
ghost use Rattle.integrity_pool.specs.Changes.{created_in, epoch_as, slashed_with};
ghost use Rattle.mirror.specs.Args.{number_at, slashing_in};
ghost use Rattle.mirror.specs.Site.{changed};
ghost use Rattle.mirror.specs.Calls.{add_of, remove_of, create_slash_event_of, slash_of, fee_of, stake_account_of};

use crate::args::{accounts, delegation, key, slashing};
use crate::site::Site;
use integrity_pool::payment::DelegationRecord;
use integrity_pool::stake_account::set_publisher_stake_account;
use integrity_pool::{changes, slash};
use journal::fields::Fields;
use types::refusals::Refusal;
use types::{Amount, Epoch, Ratio};

impl Site {
    // add NOW PUBLISHER ACCOUNT AMOUNT
    pub fn add(&mut self, fields: &Fields) -> Result<(), Refusal>
        ensures answer { outcome_of result ≡ acceptance (add_of self.old fields.now) }
        ensures site { self.new ≡ changed self.old (add_of self.old fields.now) }
    {
        let delegation = delegation(fields);
        let amount = Amount(fields.number(3));
        let image = self.image.as_mut_slice();
        changes::add_delegation(image, self.p, self.e, &delegation, amount)
    }

    // remove NOW PUBLISHER ACCOUNT AMOUNT STATE
    pub fn remove(&mut self, fields: &Fields) -> Result<(), Refusal>
        ensures answer { outcome_of result ≡ acceptance (remove_of self.old fields.now) }
        ensures site { self.new ≡ changed self.old (remove_of self.old fields.now) }
    {
        let delegation = delegation(fields);
        let amount = Amount(fields.number(3));
        let state = fields.state(4);
        let image = self.image.as_mut_slice();
        changes::remove_delegation(image, self.p, self.e, &delegation, amount, state)
    }

    // create-slash-event NOW PUBLISHER INDEX
    pub fn create_slash_event(&mut self, fields: &Fields) -> Result<Epoch, Refusal>
        ensures answer { outcome_by epoch_as result ≡ created_in (number_at fields.now.values.items 0) (create_slash_event_of self.old fields.now) }
        ensures site { self.new ≡ changed self.old (create_slash_event_of self.old fields.now) }
    {
        let publisher = key(fields, 1);
        let index = fields.number(2);
        let now = Epoch(fields.number(0));
        let image = self.image.as_mut_slice();
        slash::create_slash_event(image, self.p, self.e, publisher, index, now)
    }

    // slash NOW PUBLISHER ACCOUNT RECORD_EPOCH NEXT_INDEX INDEX EVENT_EPOCH LOCKED PREUNLOCKING
    pub fn slash(&mut self, fields: &Fields) -> Result<DelegationRecord, Refusal>
        ensures answer { outcome_of result ≡ slashed_with (slashing_in fields.now.values.items) (slash_of self.old fields.now) }
        ensures site { self.new ≡ changed self.old (slash_of self.old fields.now) }
    {
        let slashing = slashing(fields);
        slash::slash(self.image.as_mut_slice(), self.p, self.e, &slashing)
    }

    // fee FEE
    pub fn fee(&mut self, fields: &Fields) -> Result<(), Refusal>
        ensures answer { outcome_of result ≡ acceptance (fee_of self.old fields.now) }
        ensures site { self.new ≡ changed self.old (fee_of self.old fields.now) }
    {
        let fee = Ratio(fields.number(0));
        changes::update_delegation_fee(self.image.as_mut_slice(), self.p, self.e, fee)
    }

    // stake-account PUBLISHER SIGNER AUTHORITY OLD OLD_OWNER OLD_POSITIONS NEW NEW_POSITIONS
    pub fn stake_account(&mut self, fields: &Fields) -> Result<(), Refusal>
        ensures answer { outcome_of result ≡ acceptance (stake_account_of self.old fields.now) }
        ensures site { self.new ≡ changed self.old (stake_account_of self.old fields.now) }
    {
        let accounts = accounts(fields);
        let old = fields.first_list();
        let new = fields.last_list();
        let image = self.image.as_mut_slice();
        set_publisher_stake_account(image, self.p, self.e, old, new, &accounts)
    }
}
