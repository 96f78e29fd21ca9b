// The schedule of a case, which stays where it stands: only judged here.
ghost use Rattle.std.specs.Prelude.{◌≡◌, ℕ, ◌+◌, ◌≤◌, length, IfOk};
ghost use Rattle.reader.specs.Case.{next, item_judged, items_judged, item_count_judged, schedule_judged};
ghost use Rattle.reader.specs.Refusal.{judged_of};

use crate::refusal::{Fault, Refusal};
use crate::state::State;
use crate::{bytes, field, rules};

// An item is judged alike wherever it stands in the schedule.
#[tactic(auto, unfolding(crate::specs::Case::item_judged, crate::specs::Case::field, crate::specs::Case::verdict_of))]
fn item(case: &[u8], threads: usize, at: usize) -> Result<usize, Refusal>
    ensures { (k : ℕ) → judged_of result ≡ item_judged case.now threads k (next at) }
{
    let next = field::end(case, at, 1)?;
    if !rules::item_fits(threads, usize::from(case[at])) {
        return Err(Fault::Item.at(at));
    }
    Ok(next)
}

// So many items in turn.
#[tactic(auto, using(crate::proofs::Each::turns), unfolding(crate::specs::Case::items_judged))]
fn items(case: &[u8], threads: usize, n: usize, mut at: usize) -> Result<usize, Refusal>
    ensures { judged_of result ≡ items_judged case.now threads n at }
{
    for _ in 0..n {
        at = item(case, threads, at)?;
    }
    Ok(at)
}

// The count of the schedule: one field of two bytes. Like `field::count` but for what is read and its limits: what the two share is two lines.
#[tactic(auto, unfolding(crate::specs::Case::item_count_judged, crate::specs::Case::field, crate::specs::Case::verdict_of))]
fn count(case: &[u8], at: usize) -> Result<usize, Refusal>
    ensures judged { judged_of result ≡ item_count_judged case.now at }
    ensures there { IfOk result (λ end. (end ≡ at + 2) × (end ≤ length case.now)) }
{
    let next = field::end(case, at, 2)?;
    if bytes::pair_at(case, at) > State::ITEMS {
        return Err(Fault::Count.at(at));
    }
    Ok(next)
}

// The count, the items, and that nothing is left over.
#[tactic(auto, unfolding(crate::specs::Case::schedule_judged))]
pub fn judge(case: &[u8], threads: usize, at: usize) -> Result<usize, Refusal>
    ensures judged { judged_of result ≡ schedule_judged case.now threads at }
    ensures there { IfOk result (λ _. at + 2 ≤ length case.now) }
{
    let first = count(case, at)?;
    let end = items(case, threads, bytes::pair_at(case, at), first)?;
    if end < case.len() {
        return Err(Fault::Missing.at(end));
    }
    Ok(end)
}
