// A field of a case: whether it is wholly there, and a count within its limits. A field that is fine gives where the next one begins. Case and place are
// two parameters throughout the reader: a cursor would hold the place, and each clause would need a second equation for it.
ghost use Rattle.std.specs.Prelude.{◌≡◌, ◌+◌, ◌-◌, ◌<◌, ◌≤◌, length, IfOk, IfErr};
ghost use Rattle.reader.specs.Bytes.{byte};
ghost use Rattle.reader.specs.Case.{count_judged};
ghost use Rattle.reader.specs.Refusal.{judged_of};
ghost use Rattle.reader.specs.declared.refusal.Fault.TheVariants.{Missing};

use crate::bytes;
use crate::refusal::{Fault, Refusal};

// Where a field of n bytes ends, which is refused unless it is wholly there.
pub fn end(case: &[u8], at: usize, n: usize) -> Result<usize, Refusal>
    ensures there { IfOk result (λ next. (next ≡ at + n) × (n ≤ length case.now - at)) }
    ensures missing { IfErr result (λ r. (r ≡ record { fault = Missing; place = at }) × (length case.now - at < n)) }
{
    if bytes::left(case, at) < n {
        return Err(Fault::Missing.at(at));
    }
    Ok(at + n)
}

// A count of one byte, within its limits.
#[tactic(auto, unfolding(crate::specs::Case::count_judged, crate::specs::Case::field, crate::specs::Case::verdict_of, crate::specs::Rules::within))]
pub fn count(case: &[u8], low: usize, high: usize, at: usize) -> Result<usize, Refusal>
    ensures judged { judged_of result ≡ count_judged case.now low high at }
    ensures there { IfOk result (λ next. (next ≡ at + 1) × (next ≤ length case.now) × (low ≤ byte case.now at) × (byte case.now at ≤ high)) }
{
    let next = end(case, at, 1)?;
    if !(low..=high).contains(&usize::from(case[at])) {
        return Err(Fault::Count.at(at));
    }
    Ok(next)
}
