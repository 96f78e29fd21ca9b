// The ownership table and the dirty flag: read for the rules, and put back. Nobody else in this layer indexes them. What an item makes of them is decided in marks.
ghost use Rattle.std.specs.Prelude.{◌≡◌, ◌<◌};
ghost use Rattle.reader.specs.Limits.{THREADS, CELLS};
ghost use Rattle.machine.specs.Effect.{cell_of};
ghost use Rattle.discipline.specs.Table.{held_in, holding_of, owned, owns, others, is_local, is_dirty};

use machine::action::Sharing;
use machine::effect;
use reader::state::{Instruction, State};

// What is held of the cell that an instruction is about, and the flag of its thread: numbers as they stand in the lent state, so that what a rule leaves
// alone is put back as it was.
#[derive(Clone, Copy)]
pub struct Held {
    pub dirty: u32,
    pub owner: u8,
    pub sharing: u8,
}

impl Held {
    #[tactic(auto, unfolding(crate::specs::Table::held_of))]
    pub fn of(s: &State, t: usize, i: Instruction) -> Self
        requires { (t < THREADS) × (cell_of i < CELLS) }
        ensures { result ≡ held_in s.now t i }
    {
        let c = effect::cell_of(i);
        Held {
            dirty: s.dirty[t],
            owner: s.owners[c],
            sharing: s.sharing[c],
        }
    }

    pub fn is_owned(self) -> bool
        ensures { result ≡ owned self }
    {
        self.owner != 0
    }

    // Whether the thread of row t owns the cell.
    pub fn is_own(self, t: usize) -> bool
        ensures { result ≡ owns self t }
    {
        usize::from(self.owner).checked_sub(1) == Some(t)
    }

    // Whether another thread owns the cell.
    pub fn is_others(self, t: usize) -> bool
        ensures { result ≡ others self t }
    {
        self.is_owned() && !self.is_own(t)
    }

    pub fn is_local(self) -> bool
        ensures { result ≡ is_local self }
    {
        self.sharing == Sharing::Local as u8
    }

    pub fn is_dirty(self) -> bool
        ensures { result ≡ is_dirty self }
    {
        self.dirty != 0
    }
}

// What is then held is put back: the flag of row t, the owner and the sharing mark of the instruction's cell.
#[tactic(auto, unfolding(crate::specs::Table::holding_of))]
pub fn put(s: &mut State, t: usize, i: Instruction, h: Held)
    requires { (t < THREADS) × (cell_of i < CELLS) }
    ensures { s.new ≡ holding_of s.old t i h }
{
    let c = effect::cell_of(i);
    s.dirty[t] = h.dirty;
    s.owners[c] = h.owner;
    s.sharing[c] = h.sharing;
}
