// The cell records of a case, read into memory and the ownership table.
ghost use Rattle.std.specs.Prelude.{◌≡◌, ◌+◌, ◌≤◌, length, IfOk};
ghost use Rattle.reader.specs.Limits.{CELLS};
ghost use Rattle.reader.specs.Case.{cell_judged, cells_of};
ghost use Rattle.reader.specs.Rules.{cell_bytes};
ghost use Rattle.reader.specs.Refusal.{judged_of, part_of, part_at};

use crate::refusal::{Fault, Refusal};
use crate::state::State;
use crate::{bytes, field, rules};

// One cell record: a field as a whole, and once it is there, its bytes in order.
#[tactic(auto, unfolding(crate::specs::Case::cell_judged, crate::specs::Case::field, crate::specs::Case::verdict_of))]
fn cell(case: &[u8], threads: usize, at: usize) -> Result<usize, Refusal>
    ensures judged { judged_of result ≡ cell_judged case.now threads at }
    ensures there { IfOk result (λ next. (next ≡ at + cell_bytes) × (next ≤ length case.now)) }
{
    let next = field::end(case, at, rules::CELL_BYTES)?;
    let x = bytes::cell_at(case, at);
    match rules::cell_wrong(threads, x.owner, x.sharing) {
        Some(wrong) => Err(Fault::Cell.at(at + wrong)),
        None => Ok(next),
    }
}

// The records of all cells.
#[tactic(auto, using(crate::proofs::Each::turns), unfolding(crate::specs::Case::cells_of, crate::specs::Case::cell_into))]
pub fn read(case: &[u8], state: &mut State, mut at: usize) -> Result<usize, Refusal>
    requires { state.old.cells ≤ CELLS }
    ensures read { part_of result state.new ≡ cells_of case.now (part_at at state.old) }
    ensures kept { state.new.threads ≡ state.old.threads }
{
    for c in 0..state.cells {
        let next = cell(case, state.threads, at)?;
        let x = bytes::cell_at(case, at);
        state.memory[c] = x.value;
        state.owners[c] = x.owner;
        state.sharing[c] = x.sharing;
        at = next;
    }
    Ok(at)
}
