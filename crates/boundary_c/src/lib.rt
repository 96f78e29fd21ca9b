#![tactic(auto)]

// The exports of the static library that C and Rust programs link: the functions of `boundary` by their C names, each with the same clause. What belongs
// here: nothing else. They are written twice, since a static library has its exports in itself, and the edits that their clauses refuse stand in `boundary`.
ghost use Rattle.discipline.specs.Check.{Checks};
ghost use Rattle.stepping.specs.Step.{Steps};

use discipline::check::Answer;
use reader::state::State;

#[unsafe(no_mangle)]
pub extern "C" fn frascolimba_check(case: &[u8], values: &mut [i32], memory: &mut [i32]) -> Answer
    ensures { Checks case.now values.old memory.old result values.new memory.new }
{
    boundary::frascolimba_check(case, values, memory)
}

#[unsafe(no_mangle)]
pub extern "C" fn frascolimba_step(s: &mut State, item: u8) -> Answer
    ensures { Steps s.old item result s.new }
{
    boundary::frascolimba_step(s, item)
}
