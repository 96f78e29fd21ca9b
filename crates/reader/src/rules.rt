// What a cell, an instruction and an item of a case may hold, judged on values and not on bytes.
ghost use Rattle.std.specs.Prelude.{◌≡◌, ◌<◌, eqb, ltb, leb, unwrap_or, IfSome};
ghost use Rattle.std.specs.Int.{from_bool};
ghost use Rattle.reader.specs.Operations.{CELL, uses_of, number_of};
ghost use Rattle.reader.specs.Rules.{cell_bytes, cell_wrong, fits_of, bound_of, instruction_bytes, instruction_wrong, item_fits};

use crate::operations::{Field, Operation};
use crate::state::{Instruction, State};

pub const CELL_BYTES: usize = 6;

pub const INSTRUCTION_BYTES: usize = 7;

// Where a cell record is first wrong, as an offset into its bytes.
#[tactic(auto, unfolding(crate::specs::Rules::cell_wrong))]
pub fn cell_wrong(threads: usize, owner: u8, sharing: u8) -> Option<usize>
    ensures first { unwrap_or result cell_bytes ≡ cell_wrong threads owner sharing }
    ensures inside { IfSome result (λ k. k < cell_bytes) }
{
    if threads < usize::from(owner) {
        return Some(4);
    }
    if 1 < sharing || (owner == 0 && sharing == 0) {
        return Some(5);
    }
    None
}

// A field that is used is below its bound, another is zero.
#[tactic(auto, unfolding(crate::specs::Rules::fits_of))]
fn fits(used: bool, bound: usize, x: u8) -> bool
    ensures { result ≡ fits_of (from_bool used) bound x }
{
    if used { usize::from(x) < bound } else { x == 0 }
}

// The cell byte of an instruction: the target of a branch may be the count itself.
#[tactic(auto, unfolding(crate::specs::Operations::uses_of, crate::specs::Rules::fits_of, crate::specs::Rules::bound_of))]
fn cell_fits(operation: Operation, cells: usize, count: usize, cell: u8) -> bool
    ensures { result ≡ fits_of (uses_of (number_of operation) CELL) (bound_of (number_of operation) cells count) cell }
{
    match operation {
        Operation::Branch => usize::from(cell) <= count,
        _ => fits(operation.uses(Field::Cell), cells, cell),
    }
}

// Where an instruction is first wrong, as an offset into its bytes.
#[tactic(auto, unfolding(crate::specs::Rules::instruction_wrong, crate::specs::Rules::cell_fits, crate::specs::Rules::register_fits, crate::specs::Rules::value_fits, crate::specs::Rules::within))]
pub fn instruction_wrong(cells: usize, count: usize, i: Instruction) -> Option<usize>
    ensures first { unwrap_or result instruction_bytes ≡ instruction_wrong cells count i }
    ensures inside { IfSome result (λ k. k < instruction_bytes) }
{
    let Ok(operation) = Operation::try_from(i.operation) else {
        return Some(0);
    };
    if !cell_fits(operation, cells, count, i.cell) {
        return Some(1);
    }
    if !fits(
        operation.uses(Field::Register),
        State::REGISTERS,
        i.register,
    ) {
        return Some(2);
    }
    if i.value != 0 && !operation.uses(Field::Value) {
        return Some(3);
    }
    None
}

// Whether a byte is an item of so many threads.
#[tactic(auto, unfolding(crate::specs::Rules::item_fits, crate::specs::Rules::within))]
pub fn item_fits(threads: usize, x: usize) -> bool
    ensures { result ≡ item_fits threads x }
{
    (1..=threads).contains(&x) || (1..=threads).contains(&x.saturating_sub(16))
}
