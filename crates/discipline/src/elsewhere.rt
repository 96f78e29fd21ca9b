// Pending stores in the buffers of other threads.
ghost use Rattle.std.specs.Prelude.{◌≡◌, ◌≤◌};
ghost use Rattle.reader.specs.Limits.{DEPTH};
ghost use Rattle.discipline.specs.Elsewhere.{Rows, holds, elsewhere_of};

use machine::buffer;
use reader::state::{Queue, State};

// Whether a row holds a pending store to a cell.
#[tactic(auto, using(crate::proofs::Searches::holds_newest))]
pub fn is_pending(q: &Queue, cell: u32) -> bool
    requires { q.now.count ≤ DEPTH }
    ensures { result ≡ holds q.now cell }
{
    buffer::newest(q.pending(), cell).is_some()
}

// Whether a store to the cell pends with a thread but that of row t. Not inline: only an ACQUIRE asks, and every other item would pay for it.
#[inline(never)]
pub fn is_elsewhere(s: &State, t: usize, cell: u32) -> bool
    requires { Rows s.now.queues s.now.threads }
    ensures { result ≡ elsewhere_of s.now.queues s.now.threads t cell }
{
    (0..s.threads).any(|u| u != t && is_pending(&s.queues[u], cell))
}
