// The run of a schedule on the checked machine.
ghost use Rattle.std.specs.Prelude.{◌≤◌, length};
ghost use Rattle.machine.specs.Hurdle.{ran_of};
ghost use Rattle.machine.specs.Run.{Answers};
ghost use Rattle.discipline.specs.Reason.{number_of};
ghost use Rattle.discipline.specs.Step.{checked_of};
ghost use Rattle.discipline.specs.Run.{Items, IsItem, Runnable};

use crate::breach::Reason;
use crate::step;
use machine::run;
use machine::run::{Ended, Machine};
use reader::state::State;

// The machine with buffers under the discipline.
pub struct Checked;

impl Machine for Checked {
    type Reason = Reason;

    ghost number = { number_of };

    ghost step = { checked_of };

    ghost Takes = { IsItem };

    fn step(s: &mut State, item: u8) -> Result<i32, Reason> {
        step::stepped(s, item)
    }
}

// Every item is taken in turn until one is not. The k-th value is what the k-th item read, or 0. The one run:
// whoever called that instead would have to show of each item what is shown here once.
pub fn ran(s: &mut State, items: &[u8], values: &mut [i32]) -> Ended<Reason>
    requires { Runnable s.old × (Items s.old.threads items.now × (length items.now ≤ length values.old)) }
    ensures { Answers checked_of s.old items.now values.old (ran_of number_of s.new result) values.new }
{
    run::run::<Checked>(s, items, values)
}
