// One item of the checked machine, in place: the machine is asked first, then the rules; then both do what they do.
ghost use Rattle.std.specs.Prelude.{true, ◌≡◌, ◌<◌};
ghost use Rattle.reader.specs.Rules.{item_fits};
ghost use Rattle.machine.specs.Hurdle.{outcome_of};
ghost use Rattle.discipline.specs.Reason.{number_of};
ghost use Rattle.discipline.specs.Run.{Runnable};
ghost use Rattle.discipline.specs.Step.{checked_take, checked_of};

use crate::breach::Reason;
use crate::table::Held;
use crate::{marks, rules, table};
use machine::{effect, step};
use reader::item::Item;
use reader::state::State;

// The next instruction of row t.
#[inline(always)]
fn take(s: &mut State, t: usize) -> Result<i32, Reason>
    requires { Runnable s.old × (t < s.old.threads) }
    ensures { outcome_of number_of s.new result ≡ checked_take s.old t }
{
    let next = step::fetched(s, t)?;
    effect::allowed(s.depth, &s.queues[t], next.action)?;
    let held = Held::of(s, t, next.instruction);
    rules::allowed(s, t, held, next)?;
    let value = step::carry_out(s, t, next);
    table::put(s, t, next.instruction, marks::marked(held, t, next.action));
    Ok(value)
}

// What the item read; or why it is not taken, and the state as it was.
#[inline(always)]
pub fn stepped(s: &mut State, item: u8) -> Result<i32, Reason>
    requires { Runnable s.old × (item_fits s.old.threads item ≡ true) }
    ensures { outcome_of number_of s.new result ≡ checked_of s.old item }
{
    match Item::from(item) {
        Item::Take(t) => take(s, t),
        Item::Drain(t) => Ok(step::drain(s, t)?),
    }
}
