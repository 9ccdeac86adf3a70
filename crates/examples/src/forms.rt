// The calls with lent records, each beside the core's call, on copies of one image. A line says whether the two left the same.
ghost use Rattle.std.specs.Prelude.{◌≡◌, ◌↔◌, ◌≤◌, IsTrue};

use crate::calls::Row;
use crate::given::{E, Image};
use crate::tell;
use integrity_pool::payment::{Claim, DelegationRecord, advance_delegation_record};
use integrity_pool::slash::Slashing;
use lent::payment::LentClaim;
use lent::slash::LentSlashing;
use positions::position::Position;
use types::refusals::Refusal;

// What a call left: the image, its answer, and the record to store.
#[derive(Debug, PartialEq, Eq, Drop)]
struct Outcome<T> {
    pool: Image,
    answer: Result<T, Refusal>,
    delegation_record: DelegationRecord,
}

// Whether two calls left the same.
fn agree<T: PartialEq>(core: &Outcome<T>, form: &Outcome<T>) -> bool
    requires { (x y : T) → IsTrue (T.eq x y) ↔ (x ≡ y) }
    ensures { IsTrue result ↔ (core.now ≡ form.now) }
{
    core == form
}

// A function, not `From`: trait and types are of other crates, so that no impl can stand here, and lent has no use for one. So with the slashing.
fn lent_claim(claim: &Claim) -> LentClaim {
    LentClaim {
        publisher: claim.publisher,
        stake_account_positions: claim.stake_account_positions,
        publisher_stake_account_positions: claim.publisher_stake_account_positions,
        publisher_stake_account_custody: claim.publisher_stake_account_custody,
        current_epoch: claim.current_epoch,
        unlocking_duration: claim.unlocking_duration,
    }
}

fn lent_slashing(slashing: &Slashing) -> LentSlashing {
    LentSlashing {
        delegation: slashing.delegation,
        index: slashing.index,
        slash_event_epoch: slashing.slash_event_epoch,
        locked_slashed: slashing.locked_slashed,
        preunlocking_slashed: slashing.preunlocking_slashed,
    }
}

impl Row<'_> {
    // A call on a copy of the image, by which a staker's record is kept.
    fn outcome<T, F: FnOnce(&mut [u64], &mut DelegationRecord) -> Result<T, Refusal>>(
        &self,
        found: DelegationRecord,
        call: F,
    ) -> Outcome<T>
        requires { F.IsAlwaysCallable call }
    {
        let mut pool = self.pool;
        let mut delegation_record = found;
        let answer = call(&mut pool[..], &mut delegation_record);
        Outcome {
            pool,
            answer,
            delegation_record,
        }
    }

    // A form's refusal's number or 0, and whether it left the same as the core's call.
    fn compare<T: PartialEq>(
        &self,
        form_name: &str,
        core_name: &str,
        core: &Outcome<T>,
        form: &Outcome<T>,
    )
        requires { (x y : T) → IsTrue (T.eq x y) ↔ (x ≡ y) }
    {
        let name = self.name;
        let number = tell::number_of(&form.answer);
        let agreement = if agree(core, form) { "as" } else { "NOT as" };
        let _ = print!(self.to; "{name}: {form_name} {number}, {agreement} {core_name}");
    }

    // `map` asks that the array of records has its room in memory: the bound stands here and in two callers, where a type for it is no plainer.
    pub fn lent_payment<const N: usize>(&self, positions: &[[u64; 9]; N], claim: &Claim)
        requires { N ≤ 257 }
    {
        let found = claim.delegation_record;
        let core = self.outcome(found, |pool, record| {
            let words = positions.as_flattened();
            let payment = advance_delegation_record(pool, self.p, E, words, claim)?;
            *record = payment.delegation_record;
            Ok(payment)
        });
        let records = positions.map(Position::from);
        let given = lent_claim(claim);
        let form = self.outcome(found, |pool, record| {
            lent::payment::advance_delegation_record(pool, self.p, E, &records, record, &given)
        });
        self.compare("payment over records", "over words", &core, &form);
        if let Ok(payment) = &form.answer {
            let _ = print!(self.to;
                ": delegator {}, publisher {}, custody falls {}, reads {}, record at {}, next {}",
                payment.delegator_reward.0,
                payment.publisher_reward.0,
                payment.custody_fall.0,
                payment.reads,
                payment.delegation_record.last_epoch.0,
                payment.delegation_record.next_slash_event_index,
            );
        }
        let _ = println!(self.to);
    }

    pub fn lent_slash(&self, slashing: &Slashing) {
        let found = slashing.delegation_record;
        let core = self.outcome(found, |pool, record| {
            *record = integrity_pool::slash::slash(pool, self.p, E, slashing)?;
            Ok(*record)
        });
        let given = lent_slashing(slashing);
        let form = self.outcome(found, |pool, record| {
            lent::slash::slash(pool, self.p, E, record, &given)
        });
        self.compare("slash of a lent record", "by value", &core, &form);
        if let Ok(kept) = &form.answer {
            let _ = print!(self.to;
                ": record at {}, next {}",
                kept.last_epoch.0, kept.next_slash_event_index
            );
        }
        let _ = println!(self.to);
    }
}
