// What stands at a place of a case: numbers are big-endian, signed ones in two's complement. Whether it is right is judged elsewhere.
ghost use Rattle.std.specs.Prelude.{◌≡◌, ◌+◌, ◌-◌, ◌≤◌, length};
ghost use Rattle.reader.specs.Bytes.{pair_at, signed_of, value_at, cell_at, instruction_at};
ghost use Rattle.reader.specs.Rules.{cell_bytes, instruction_bytes};

use crate::state::Instruction;

// A cell record of a case: numbers as they stand there, for rules to judge.
#[derive(Clone, Copy)]
pub struct Cell {
    pub value: i32,
    pub owner: u8,
    pub sharing: u8,
}

// How many bytes there are from a place on.
pub fn left(case: &[u8], at: usize) -> usize
    ensures { result ≡ length case.now - at }
{
    case.len().saturating_sub(at)
}

// A number of two bytes.
pub fn pair_at(case: &[u8], at: usize) -> usize
    requires { at + 2 ≤ length case.now }
    ensures { result ≡ pair_at case.now at }
{
    usize::from(u16::from_be_bytes([case[at], case[at + 1]]))
}

// The signed number that a word is in two's complement.
pub fn signed(word: u32) -> i32
    ensures { result ≡ signed_of word }
{
    word.cast_signed()
}

// A signed number of four bytes.
#[tactic(auto, unfolding(crate::specs::Bytes::value_at))]
fn value_at(case: &[u8], at: usize) -> i32
    requires { at + 4 ≤ length case.now }
    ensures { result ≡ value_at case.now at }
{
    signed(u32::from_be_bytes([case[at], case[at + 1], case[at + 2], case[at + 3]]))
}

// A cell record of six bytes.
#[tactic(auto, unfolding(crate::specs::Bytes::cell_at))]
pub fn cell_at(case: &[u8], at: usize) -> Cell
    requires { at + cell_bytes ≤ length case.now }
    ensures { result ≡ cell_at case.now at }
{
    Cell {
        value: value_at(case, at),
        owner: case[at + 4],
        sharing: case[at + 5],
    }
}

// An instruction of seven bytes.
#[tactic(auto, unfolding(crate::specs::Bytes::instruction_at))]
pub fn instruction_at(case: &[u8], at: usize) -> Instruction
    requires { at + instruction_bytes ≤ length case.now }
    ensures { result ≡ instruction_at case.now at }
{
    Instruction {
        value: value_at(case, at + 3),
        operation: u16::from(case[at]),
        cell: case[at + 1],
        register: case[at + 2],
    }
}
