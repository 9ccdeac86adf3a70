// A line's call is made, and answered.
ghost use Rattle.std.specs.Prelude.{◌≡◌};
ghost use Rattle.integrity_pool.specs.Payment.{record_words};
ghost use Rattle.pool.specs.Answers.{advanced_list};
ghost use Rattle.types.specs.Base.{outcome_of, acceptance};
ghost use Rattle.mirror.specs.Calls.{payment_told, split_of};

use crate::failure::{Failure, check_accounts};
use crate::site::{Site, next_nonzero};
use crate::split_call::split;
use integrity_pool::payment::{DelegationRecord, Payment};
use journal::answer::{self, ok};
use journal::calls::Call;
use journal::fields::Fields;
use journal::output::Pen;
use pool::advance::Advanced;
use std::process::Process;
use std::rt::Files;
use types::refusals::Refusal;

// The values of an advance's answer. With a contract, here and below, which a line's call has not.
fn advanced_values(done: Advanced) -> [u64; 5]
    ensures { result ≡ advanced_list done }
{
    done.into()
}

// The record to keep.
fn record_values(kept: DelegationRecord) -> [u64; 2]
    ensures { result ≡ record_words kept }
{
    kept.into()
}

// The values of a payment's answer, in the program's own order. Not by `From`: trait and types are of other crates, so that no impl can stand here.
fn payment_values(paid: Payment) -> [u64; 6]
    ensures { result ≡ payment_told paid }
{
    let [epoch, index] = record_values(paid.delegation_record);
    [
        paid.delegator_reward.0,
        paid.publisher_reward.0,
        epoch,
        index,
        paid.reads,
        paid.custody_fall.0,
    ]
}

// Every word other than 0 with its place.
fn nonzero(image: &[u64], pen: &mut Pen) {
    pen.text("ok");
    let mut place = next_nonzero(image, 0);
    // A `while` over `next_nonzero`: that each word passed over is 0 is what its contract promises, and a `for` over a filter would not call it.
    while place < image.len() {
        // By `number`: with `write!`, tried, mixed calls take 1.06 of their time.
        pen.byte(b' ');
        pen.number(place as u64);
        pen.byte(b':');
        pen.number(image[place]);
        place = next_nonzero(image, place + 1);
    }
    pen.byte(b'\n');
}

// image, or image WORDS
fn image(site: &mut Site, fields: &Fields, pen: &mut Pen) {
    if fields.count() == 0 {
        ok(pen, site.image.as_slice());
    } else {
        ok(pen, &[site.take(fields.last_list())]);
    }
}

// split REWARD WEIGHTS. Apart from the match, since every line's call would clear the room for the parts.
#[inline(never)]
#[tactic(auto, unfolding(types::specs::Base::acceptance))]
fn parts(fields: &Fields, pen: &mut Pen) -> Result<(), Refusal>
    ensures { outcome_of result ≡ acceptance (split_of fields.now) }
{
    ok(pen, split(fields)?.as_slice());
    Ok(())
}

// The answer of a call without values.
fn done(made: Result<(), Refusal>, pen: &mut Pen) -> Result<(), Refusal>
    ensures { result ≡ made }
{
    made?;
    ok(pen, &[]);
    Ok(())
}

// Makes a line's call, and answers unless it is refused or the line is wrong. Without a clause: each call's function says what it answers and leaves, and
// what stands in the pen depends on how much of it was written out.
pub fn make_call(
    call: Call,
    rt: &impl Files,
    process: Process,
    site: &mut Site,
    fields: &mut Fields,
    pen: &mut Pen,
) -> Result<(), Failure> {
    match call {
        Call::New => ok(pen, &[site.lay_out(fields)]),
        Call::Settings => {
            site.set(fields);
            ok(pen, &[]);
        }
        Call::Image => image(site, fields, pen),
        Call::Nonzero => nonzero(site.image.as_slice(), pen),
        Call::Load => ok(pen, &[site.load(rt, fields)?]),
        Call::Save => ok(pen, &[site.save(rt, process, fields)?]),
        Call::Fresh => done(site.fresh(fields), pen)?,
        Call::Advance => ok(pen, &advanced_values(site.advance(fields)?)),
        Call::Forecast => ok(pen, &[site.forecast(fields)?.0]),
        Call::Payment => ok(pen, &payment_values(site.payment(fields)?)),
        Call::Add => done(site.add(fields), pen)?,
        Call::Remove => done(site.remove(fields), pen)?,
        Call::CreateSlashEvent => ok(pen, &[site.create_slash_event(fields)?.0]),
        Call::Slash => ok(pen, &record_values(site.slash(fields)?)),
        Call::Fee => done(site.fee(fields), pen)?,
        Call::StakeAccount => {
            check_accounts(fields)?;
            done(site.stake_account(fields), pen)?;
        }
        Call::Show => show::show(site.image.as_slice(), site.p, site.e, pen),
        Call::State => answer::state(pen, site.state(fields)?),
        Call::Split => parts(fields, pen)?,
        Call::Help => answer::help(pen, fields.call(0)),
        Call::Quit => ok(pen, &[]),
    }
    Ok(())
}
