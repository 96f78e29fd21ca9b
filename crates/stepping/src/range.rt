// Whether a state is in range: the limits first, so that all that is looked at after them is there. Places beyond the counts are not looked at.
ghost use Rattle.std.specs.Prelude.{◌≡◌, ◌<◌, ◌≤◌, true};
ghost use Rattle.reader.specs.Limits.{THREADS, CELLS, DEPTH};
ghost use Rattle.stepping.specs.Range.{all_below, queue_fits, sizes_fit, cell_fits, program_fits, thread_fits, in_range_of};

use machine::effect;
use reader::rules;
use reader::state::{Queue, State};

// The number of threads, of cells, and the depth: what the tests after it ask before they look at a place.
#[tactic(auto, unfolding(crate::specs::Range::sizes_fit, reader::specs::Rules::within))]
fn sizes_fit(s: &State) -> bool
    ensures tested { result ≡ sizes_fit s.now }
    ensures within { result ≡ true → (s.now.threads ≤ THREADS) × (s.now.cells ≤ CELLS) × (s.now.depth ≤ DEPTH) }
{
    (1..=State::THREADS).contains(&s.threads)
        && (1..=State::CELLS).contains(&s.cells)
        && (1..=State::DEPTH).contains(&s.depth)
}

// Owners and sharing marks, as a case could hold them.
fn cells_fit(s: &State) -> bool
    requires { s.now.cells ≤ CELLS }
    ensures { result ≡ all_below (cell_fits s.now) s.now.cells }
{
    (0..s.cells).all(|c| rules::cell_wrong(s.threads, s.owners[c], s.sharing[c]).is_none())
}

// The instructions of row t, as a case could hold them.
#[tactic(auto, unfolding(crate::specs::Range::program_fits))]
fn program_fits(s: &State, t: usize) -> bool
    requires { t < THREADS }
    ensures { result ≡ program_fits s.now t }
{
    let count = s.counts[t];
    count <= State::INSTRUCTIONS
        && (0..count).all(|k| {
            let i = s.code[effect::code_place(t, k)];
            rules::instruction_wrong(s.cells, count, i).is_none()
        })
}

// A buffer: no more pending stores than the depth, each to a cell. `as`, since no `From` leads from u32 to usize.
#[tactic(auto, unfolding(crate::specs::Range::queue_fits))]
fn queue_fits(cells: usize, depth: usize, q: &Queue) -> bool
    requires { depth ≤ DEPTH }
    ensures { result ≡ queue_fits cells depth q.now }
{
    q.count <= depth && q.pending().iter().all(|e| (e.cell as usize) < cells)
}

// Program, buffer and position of row t.
#[tactic(auto, unfolding(crate::specs::Range::thread_fits))]
fn thread_fits(s: &State, t: usize) -> bool
    requires { (t < THREADS) × (s.now.depth ≤ DEPTH) }
    ensures { result ≡ thread_fits s.now t }
{
    program_fits(s, t)
        && queue_fits(s.cells, s.depth, &s.queues[t])
        && s.positions[t] <= s.counts[t]
}

// Each thread's program, buffer and position.
fn threads_fit(s: &State) -> bool
    requires { (s.now.threads ≤ THREADS) × (s.now.depth ≤ DEPTH) }
    ensures { result ≡ all_below (thread_fits s.now) s.now.threads }
{
    (0..s.threads).all(|t| thread_fits(s, t))
}

// The whole test, as a caller asks it of a state that it was lent.
#[tactic(auto, unfolding(crate::specs::Range::in_range_of))]
pub fn is_in_range(s: &State) -> bool
    ensures { result ≡ in_range_of s.now }
{
    sizes_fit(s) && cells_fit(s) && threads_fit(s)
}
