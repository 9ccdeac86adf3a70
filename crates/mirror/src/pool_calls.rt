// The calls that close epochs, payments, and a position's state.
ghost use Rattle.std.specs.Prelude.{◌≡◌};
ghost use Rattle.types.specs.Base.{outcome_of, outcome_by};
ghost use Rattle.pool.specs.Answers.{advanced_as, amount_as};
ghost use Rattle.integrity_pool.specs.Payment.{payment_as};
ghost use Rattle.mirror.specs.Calls.{fresh_of, after_fresh, advance_of, after_advance, forecast_of, payment_of, after_payment, state_of};

use crate::args::{claim, given};
use crate::site::Site;
use integrity_pool::payment::{Payment, advance_delegation_record};
use journal::fields::Fields;
use pool::advance::Advanced;
use positions::list::position_state;
use positions::position::PositionState;
use types::refusals::Refusal;
use types::{Amount, Epoch};

impl Site {
    // fresh EPOCH
    pub fn fresh(&mut self, fields: &Fields) -> Result<(), Refusal>
        ensures answer { outcome_of result ≡ fresh_of self.old fields.now }
        ensures site { self.new ≡ after_fresh self.old fields.now }
    {
        integrity_pool::fresh(self.image.as_mut_slice(), self.p, self.e, fields.number(0))
    }

    // advance NOW Y CUSTODY VERIFIED CAPS
    pub fn advance(&mut self, fields: &Fields) -> Result<Advanced, Refusal>
        ensures answer { outcome_by advanced_as result ≡ advance_of self.old fields.now }
        ensures site { self.new ≡ after_advance self.old fields.now }
    {
        let given = given(fields, self.epoch_duration);
        let image = self.image.as_mut_slice();
        integrity_pool::advance(image, self.p, self.e, fields.bytes(), given)
    }

    // forecast NOW Y CUSTODY VERIFIED CAPS
    pub fn forecast(&self, fields: &Fields) -> Result<Amount, Refusal>
        ensures { outcome_by amount_as result ≡ forecast_of self.now fields.now }
    {
        let given = given(fields, self.epoch_duration);
        let image = self.image.as_slice();
        integrity_pool::forecast(image, self.p, self.e, fields.bytes(), given)
    }

    // payment NOW PUBLISHER ACCOUNT RECORD_EPOCH NEXT_INDEX PUBLISHER_ACCOUNT CUSTODY_FLAG POSITIONS
    pub fn payment(&mut self, fields: &Fields) -> Result<Payment, Refusal>
        ensures answer { outcome_by payment_as result ≡ payment_of self.old fields.now }
        ensures site { self.new ≡ after_payment self.old fields.now }
    {
        let claim = claim(fields, self.unlocking_duration);
        let image = self.image.as_mut_slice();
        advance_delegation_record(image, self.p, self.e, fields.last_list(), &claim)
    }

    // state EPOCH POSITION, of which the pool is no part.
    pub fn state(&self, fields: &Fields) -> Result<PositionState, Refusal>
        ensures { outcome_of result ≡ state_of self.now fields.now }
    {
        let epoch = Epoch(fields.number(0));
        position_state(fields.last_list(), epoch, self.unlocking_duration)
    }
}
