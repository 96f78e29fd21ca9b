// The machine of one memory: the same actions on a state whose buffers are not used.
ghost use Rattle.std.specs.Prelude.{◌≡◌, ◌<◌, ◌≤◌, length};
ghost use Rattle.reader.specs.Range.{InRange};
ghost use Rattle.machine.specs.Hurdle.{number_of, outcome_of, ran_of};
ghost use Rattle.machine.specs.Plain.{Threads, IsThread, at_once, plain_step, plain_of};
ghost use Rattle.machine.specs.Run.{Answers};

use crate::effect::Effect;
use crate::hurdle::Hurdle;
use crate::run::{Ended, Machine};
use crate::{effect, run, step};
use reader::state::{Queue, State};

// A store reaches memory at once.
#[tactic(auto, unfolding(crate::specs::Plain::at_once))]
fn at_once(e: Effect) -> Effect
    ensures { result ≡ at_once e }
{
    Effect {
        word: e.pushed.unwrap_or(e.word),
        pushed: None,
        ..e
    }
}

// The next instruction of row t: what it read; nothing holds it back but the end of its program.
pub fn stepped(s: &mut State, t: usize) -> Result<i32, Hurdle>
    requires { InRange s.old × (t < s.old.threads) }
    ensures { outcome_of number_of s.new result ≡ plain_step s.old t }
{
    let next = step::fetched(s, t)?;
    let e = at_once(effect::change(next.seen, &Queue::empty(), next.action));
    effect::apply(s, t, next.instruction, e);
    Ok(e.value)
}

// The machine whose items are the numbers of threads.
pub struct OneMemory;

impl Machine for OneMemory {
    type Reason = Hurdle;

    ghost number = { number_of };

    ghost step = { plain_of };

    ghost Takes = { IsThread };

    fn step(s: &mut State, item: u8) -> Result<i32, Hurdle> {
        stepped(s, usize::from(item - 1))
    }
}

// A whole order of threads, until the first that is at its end. One value for each step. The one run: whoever
// called that instead would have to show of each thread what is shown here once.
pub fn ran(s: &mut State, order: &[u8], values: &mut [i32]) -> Ended<Hurdle>
    requires { InRange s.old × (Threads s.old.threads order.now × (length order.now ≤ length values.old)) }
    ensures { Answers plain_of s.old order.now values.old (ran_of number_of s.new result) values.new }
{
    run::run::<OneMemory>(s, order, values)
}
