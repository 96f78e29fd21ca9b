#![tactic(auto)]

// The library as C and Rust programs call it: two functions by their C names, and nothing else. What each means is said where it is proved.
ghost use Rattle.discipline.specs.Check.{Checks};
ghost use Rattle.stepping.specs.Step.{Steps};

use discipline::check;
use discipline::check::Answer;
use reader::state::State;
use stepping::step;

// The answer of any byte string. Nothing is written to a list unless the case is well-formed and both lists are long enough.
#[unsafe(no_mangle)]
pub extern "C" fn frascolimba_check(case: &[u8], values: &mut [i32], memory: &mut [i32]) -> Answer
    ensures { Checks case.now values.old memory.old result values.new memory.new }
{
    check::check(case, values, memory)
}

// One item on a state that the caller lends: the state is taken out, stepped, and put back.
#[unsafe(no_mangle)]
pub extern "C" fn frascolimba_step(s: &mut State, item: u8) -> Answer
    ensures { Steps s.old item result s.new }
{
    let old = *s;
    let r = step::stepped(old, item);
    *s = r.state;
    r.answer
}
