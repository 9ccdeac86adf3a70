// A reward split among clients.
ghost use Rattle.std.specs.Prelude.{◌≡◌};
ghost use Rattle.types.specs.Base.{outcome_by};
ghost use Rattle.mirror.specs.Calls.{split_of};

use crate::site::set_zeros;
use arrayvec::ArrayVec;
use journal::fields::Fields;
use split::MAX_WEIGHTS;
use types::refusals::Refusal;

// split REWARD WEIGHTS, of which the pool is no part. With more weights than are taken the list of parts is shorter, and the call is refused all the same.
pub fn split(fields: &Fields) -> Result<ArrayVec<u64, MAX_WEIGHTS>, Refusal>
    ensures { outcome_by (λ parts. parts.items) result ≡ split_of fields.now }
{
    let weights = fields.last_list();
    let mut parts = ArrayVec::new();
    set_zeros(&mut parts, weights.len().min(MAX_WEIGHTS));
    split::split(fields.number(0), weights, parts.as_mut_slice())?;
    Ok(parts)
}
