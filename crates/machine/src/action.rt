// What an instruction is, once it is looked at: the ten operations are eight actions, and one that is none of the ten is the end of its program.
// What an action finds and does belongs to effect.
ghost use Rattle.std.specs.Prelude.{◌≡◌, ◌+◌, ◌^◌, ◌<◌};
ghost use Rattle.machine.specs.Action.{action_of};

use crate::integer;
use reader::operations::Operation;
use reader::state::Instruction;

// The mark of a cell, numbered as it stands in the state, which `as` gives.
#[derive(Clone, Copy, Debug, PartialEq, Eq)]
pub enum Sharing {
    Local = 0,
    Shared = 1,
}

#[derive(Clone, Copy, Debug, PartialEq, Eq)]
pub enum Action {
    // Of a cell, into the register.
    Read { cell: u8 },
    // To a cell, of a value.
    Store { cell: u8, value: i32 },
    Fence,
    // Of a cell: it is compared with the old content of the register, and gets the new value where they are equal.
    Swap { cell: u8, old: i32, new: i32 },
    // Of a cell, with the mark that it gets.
    Acquire { cell: u8, sharing: Sharing },
    Release { cell: u8 },
    // Nothing but the thread's own position and register: where it goes, what the register then holds.
    Silent { next: usize, content: i32 },
    // The program is at its end.
    End,
}

impl Action {
    // What an instruction at a position is, whose register holds so much.
    #[inline(always)]
    #[tactic(auto, unfolding(crate::specs::Action::action_of))]
    pub fn of(i: Instruction, at: usize, content: i32) -> Self
        requires { at + 1 < 2 ^ 64 }
        ensures { result ≡ action_of i at content }
    {
        let Ok(operation) = Operation::try_from(i.operation) else {
            return Action::End;
        };
        let cell = i.cell;
        let next = at + 1;
        let store = |value| Action::Store { cell, value };
        let acquire = |sharing| Action::Acquire { cell, sharing };
        match operation {
            Operation::Load => Action::Read { cell },
            Operation::StoreConstant => store(i.value),
            Operation::StoreRegister => store(content),
            Operation::Fence => Action::Fence,
            Operation::CompareSwap => Action::Swap {
                cell,
                old: content,
                new: i.value,
            },
            Operation::AcquireLocal => acquire(Sharing::Local),
            Operation::AcquireShared => acquire(Sharing::Shared),
            Operation::Release => Action::Release { cell },
            Operation::Branch if content == i.value => Action::Silent {
                next: usize::from(cell),
                content,
            },
            Operation::Branch => Action::Silent { next, content },
            Operation::Add => Action::Silent {
                next,
                content: integer::sum(content, i.value),
            },
        }
    }
}
