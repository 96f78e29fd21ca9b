// What an action finds, what holds it back, and what it does: decided on small values before anything is stored. Row and instruction are two parameters,
// and what has to hold of them stands in the clauses: these functions are for any row and instruction, and a type that only `fetched` makes would ask more.
ghost use Rattle.std.specs.Prelude.{◌≡◌, ◌+◌, ◌*◌, ◌<◌, ◌≤◌, IsSome};
ghost use Rattle.reader.specs.Limits.{THREADS, DEPTH, INSTRUCTIONS};
ghost use Rattle.reader.specs.State.{code_place, register_place, queue_of};
ghost use Rattle.machine.specs.Effect.{cell_of, seen_of, blocked_of, effect_of, took_of};
ghost use Rattle.machine.specs.Hurdle.{number_of, test_of};
ghost use Rattle.machine.specs.Look.{Lookable};

use crate::action::Action;
use crate::buffer;
use crate::hurdle::Hurdle;
use reader::operations::Operation;
use reader::state::{Instruction, Pending, Queue, State};

// What an instruction finds: its thread's position, its register's content, and its cell's word in memory.
#[derive(Clone, Copy)]
pub struct Seen {
    pub at: usize,
    pub content: i32,
    pub word: i32,
}

impl Seen {
    // What instruction i of row t finds.
    #[tactic(auto, unfolding(crate::specs::Effect::seen_of))]
    pub fn of(s: &State, t: usize, i: Instruction) -> Self
        requires { Lookable t i }
        ensures { result ≡ seen_of s.now t i }
    {
        Seen {
            at: s.positions[t],
            content: s.registers[register_place(t, i)],
            word: s.memory[cell_of(i)],
        }
    }
}

// What it does: where its thread goes, what it read, what its register and its cell in memory then hold, and what it puts into the buffer, if anything.
#[derive(Clone, Copy)]
pub struct Effect {
    pub next: usize,
    pub value: i32,
    pub content: i32,
    pub word: i32,
    pub pushed: Option<i32>,
}

// The cell that an instruction is about; a BRANCH has its target in that place, and is about cell 0, whose word it puts back.
pub fn cell_of(i: Instruction) -> usize
    ensures { result ≡ cell_of i }
{
    // `as` is what gives an enum's number: `try_from` of the operation would bring an error to pass over.
    if i.operation == Operation::Branch as u16 {
        0
    } else {
        usize::from(i.cell)
    }
}

// Where the register of an instruction of row t stands.
pub fn register_place(t: usize, i: Instruction) -> usize
    requires { t < THREADS }
    ensures { result ≡ register_place t i.register }
{
    t * State::REGISTERS + usize::from(i.register)
}

// Where instruction k of row t stands.
pub fn code_place(t: usize, k: usize) -> usize
    requires { (t < THREADS) × (k < INSTRUCTIONS) }
    ensures { result ≡ code_place t k }
{
    t * State::INSTRUCTIONS + k
}

// What holds an action back, with so many stores pending.
#[inline(always)]
#[tactic(auto, unfolding(crate::specs::Effect::blocked_of, crate::specs::Effect::guard))]
pub fn allowed(depth: usize, q: &Queue, action: Action) -> Result<(), Hurdle>
    ensures { test_of number_of result ≡ blocked_of depth q.now action }
{
    match action {
        Action::Store { .. } if depth <= q.count => Err(Hurdle::Full),
        Action::Fence | Action::Swap { .. } if q.count != 0 => Err(Hurdle::Waits),
        Action::End => Err(Hurdle::AtEnd),
        _ => Ok(()),
    }
}

// What an action does that is not held back.
#[inline(always)]
#[tactic(auto, unfolding(crate::specs::Effect::effect_of))]
pub fn change(v: Seen, q: &Queue, action: Action) -> Effect
    requires { (v.at < INSTRUCTIONS) × (q.now.count ≤ DEPTH) }
    ensures { result ≡ effect_of v q.now action }
{
    let quiet = Effect {
        next: v.at + 1,
        value: 0,
        content: v.content,
        word: v.word,
        pushed: None,
    };
    match action {
        Action::Read { cell } => {
            let value = buffer::forwarded(q, u32::from(cell), v.word);
            Effect {
                value,
                content: value,
                ..quiet
            }
        }
        Action::Store { value, .. } => Effect {
            pushed: Some(value),
            ..quiet
        },
        Action::Swap { old, new, .. } => Effect {
            value: v.word,
            content: v.word,
            word: if v.word == old { new } else { v.word },
            ..quiet
        },
        Action::Silent { next, content } => Effect {
            next,
            content,
            ..quiet
        },
        Action::Fence | Action::Acquire { .. } | Action::Release { .. } | Action::End => quiet,
    }
}

// The state after instruction i of row t with an effect: the one place that stores it.
#[inline(always)]
#[tactic(auto, unfolding(crate::specs::Effect::took_of))]
pub fn apply(s: &mut State, t: usize, i: Instruction, e: Effect)
    requires { Lookable t i × (IsSome e.pushed → (queue_of s.old t).count < DEPTH) }
    ensures { s.new ≡ took_of s.old t i e }
{
    if let Some(value) = e.pushed {
        s.queues[t].push(Pending {
            value,
            cell: u32::from(i.cell),
        });
    }
    s.memory[cell_of(i)] = e.word;
    s.registers[register_place(t, i)] = e.content;
    s.positions[t] = e.next;
}
