#![tactic(auto)]

// The lowest layer: what a case is, and from bytes to the state that it starts. Nothing here knows how a thread steps.
ghost use Rattle.std.specs.Prelude.{◌≡◌, ◌+◌, ◌≤◌, length, IfOk};
ghost use Rattle.reader.specs.Limits.{THREADS, CELLS};
ghost use Rattle.reader.specs.Bytes.{byte};
ghost use Rattle.reader.specs.Case.{front_judged, sizes_judged, sized_of, read_of};
ghost use Rattle.reader.specs.Refusal.{judged_of, reading_of};

pub mod bytes;
mod cells;
mod field;
pub mod item;
pub mod operations;
mod programs;
pub mod refusal;
pub mod rules;
mod schedule;
pub mod state;

use refusal::{Fault, Refusal};
use state::State;

// A case that was read: the state that it starts, and where its schedule begins and how
// many items it has: two numbers, as in the definition that its clause names.
#[derive(Clone, Copy)]
pub struct Case {
    pub state: State,
    pub start: usize,
    pub items: usize,
}

// Length, version and the length field.
#[tactic(auto, unfolding(crate::specs::Case::front_judged))]
fn front(case: &[u8]) -> Result<usize, Refusal>
    ensures { judged_of result ≡ front_judged case.now }
{
    if case.len() < 3 {
        return Err(Fault::Short.at(0));
    }
    if case[0] != 1 {
        return Err(Fault::Version.at(0));
    }
    if bytes::pair_at(case, 1) != case.len() {
        return Err(Fault::Length.at(1));
    }
    Ok(3)
}

// Threads, cells and depth.
#[tactic(auto, unfolding(crate::specs::Case::sizes_judged))]
fn sizes(case: &[u8]) -> Result<usize, Refusal>
    ensures judged { judged_of result ≡ sizes_judged case.now }
    ensures there { IfOk result (λ _. (6 ≤ length case.now) × (byte case.now 3 ≤ THREADS) × (byte case.now 4 ≤ CELLS)) }
{
    field::count(case, 1, State::THREADS, 3)?;
    field::count(case, 1, State::CELLS, 4)?;
    field::count(case, 1, State::DEPTH, 5)
}

// The fresh state with the sizes of a case.
fn sized(case: &[u8]) -> State
    requires { 6 ≤ length case.now }
    ensures { result ≡ sized_of case.now }
{
    State {
        threads: usize::from(case[3]),
        cells: usize::from(case[4]),
        depth: usize::from(case[5]),
        ..State::fresh()
    }
}

// What a case says, or why it says nothing.
#[tactic(auto, unfolding(crate::specs::Case::read_of, crate::specs::Case::scheduled_of))]
pub fn read(case: &[u8]) -> Result<Case, Refusal>
    ensures { reading_of result ≡ read_of case.now }
{
    front(case)?;
    sizes(case)?;
    let mut state = sized(case);
    let at = cells::read(case, &mut state, 6)?;
    let at = programs::read(case, &mut state, at)?;
    schedule::judge(case, state.threads, at)?;
    Ok(Case {
        state,
        start: at + 2,
        items: bytes::pair_at(case, at),
    })
}
