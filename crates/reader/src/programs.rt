// The threads' programs, read into the state's code.
ghost use Rattle.std.specs.Prelude.{◌≡◌, ◌+◌, ◌≤◌, ◌<◌, length, IfOk};
ghost use Rattle.reader.specs.Limits.{THREADS, INSTRUCTIONS};
ghost use Rattle.reader.specs.Case.{instruction_judged, instructions_of, program_into, programs_of};
ghost use Rattle.reader.specs.Rules.{instruction_bytes};
ghost use Rattle.reader.specs.Refusal.{judged_of, part_of, part_at};

use crate::refusal::{Fault, Refusal};
use crate::state::State;
use crate::{bytes, field, rules};

// One instruction: a field as a whole, and once it is there, its bytes in order.
// Like `cells::cell` but for what is read and what judges it: a trait over the two would be longer than both.
#[tactic(auto, unfolding(crate::specs::Case::instruction_judged, crate::specs::Case::field, crate::specs::Case::verdict_of))]
fn instruction(case: &[u8], cells: usize, count: usize, at: usize) -> Result<usize, Refusal>
    ensures judged { judged_of result ≡ instruction_judged case.now cells count at }
    ensures there { IfOk result (λ next. (next ≡ at + instruction_bytes) × (next ≤ length case.now)) }
{
    let next = field::end(case, at, rules::INSTRUCTION_BYTES)?;
    match rules::instruction_wrong(cells, count, bytes::instruction_at(case, at)) {
        Some(wrong) => Err(Fault::Instruction.at(at + wrong)),
        None => Ok(next),
    }
}

// The instructions of row t, of which there are `count`.
#[tactic(auto, using(crate::proofs::Each::turns), unfolding(crate::specs::Case::instructions_of, crate::specs::Case::instruction_into))]
fn instructions(
    case: &[u8],
    state: &mut State,
    t: usize,
    count: usize,
    mut at: usize,
) -> Result<usize, Refusal>
    requires { (t < THREADS) × (count ≤ INSTRUCTIONS) }
    ensures { part_of result state.new ≡ instructions_of case.now t count (part_at at state.old) }
{
    for k in 0..count {
        let next = instruction(case, state.cells, count, at)?;
        state.code[t * State::INSTRUCTIONS + k] = bytes::instruction_at(case, at);
        at = next;
    }
    Ok(at)
}

// One thread's program: its count, then its instructions.
#[tactic(auto, unfolding(crate::specs::Case::program_into))]
fn program(case: &[u8], state: &mut State, t: usize, at: usize) -> Result<usize, Refusal>
    requires { t < THREADS }
    ensures { part_of result state.new ≡ program_into case.now t (part_at at state.old) }
{
    let next = field::count(case, 0, State::INSTRUCTIONS, at)?;
    let count = usize::from(case[at]);
    state.counts[t] = count;
    instructions(case, state, t, count, next)
}

// The programs of all threads.
#[tactic(auto, using(crate::proofs::Each::turns), unfolding(crate::specs::Case::programs_of))]
pub fn read(case: &[u8], state: &mut State, mut at: usize) -> Result<usize, Refusal>
    requires { state.old.threads ≤ THREADS }
    ensures { part_of result state.new ≡ programs_of case.now (part_at at state.old) }
{
    for t in 0..state.threads {
        at = program(case, state, t, at)?;
    }
    Ok(at)
}
