// The rules, each one named test. An instruction is judged by them only where the machine does not hold it back.
ghost use Rattle.std.specs.Prelude.{◌≡◌, ◌<◌};
ghost use Rattle.reader.specs.Limits.{THREADS};
ghost use Rattle.reader.specs.State.{queue_of};
ghost use Rattle.machine.specs.Hurdle.{test_of};
ghost use Rattle.discipline.specs.Elsewhere.{Rows, elsewhere_of};
ghost use Rattle.discipline.specs.Reason.{breach_number};
ghost use Rattle.discipline.specs.Rules.{load_breaks, store_breaks, acquire_breaks, release_breaks, broken_of};

use crate::breach::Breach;
use crate::elsewhere;
use crate::table::Held;
use machine::action::Action;
use machine::step::Next;
use reader::state::{Queue, State};

// An own cell, always; another only if it is shared and the flag is clear.
#[inline(always)]
#[tactic(auto, unfolding(crate::specs::Rules::load_breaks, machine::specs::Effect::guard))]
fn load(t: usize, h: Held) -> Result<(), Breach>
    ensures { test_of breach_number result ≡ load_breaks t h }
{
    if h.is_own(t) {
        return Ok(());
    }
    if h.is_local() {
        return Err(Breach::LoadOfLocal);
    }
    if h.is_dirty() {
        return Err(Breach::LoadWhileDirty);
    }
    Ok(())
}

// A cell that no other thread owns.
#[inline(always)]
#[tactic(auto, unfolding(crate::specs::Rules::store_breaks, machine::specs::Effect::guard))]
fn store(t: usize, h: Held) -> Result<(), Breach>
    ensures { test_of breach_number result ≡ store_breaks t h }
{
    if h.is_others(t) {
        return Err(Breach::StoreToOthers);
    }
    Ok(())
}

// A cell without owner, to which no store pends elsewhere.
#[inline(always)]
#[tactic(auto, unfolding(crate::specs::Rules::acquire_breaks, machine::specs::Effect::guard))]
fn acquire(t: usize, h: Held, elsewhere: bool) -> Result<(), Breach>
    ensures { test_of breach_number result ≡ acquire_breaks t h elsewhere }
{
    if h.is_owned() {
        return Err(Breach::AcquireOfOwned);
    }
    if elsewhere {
        return Err(Breach::AcquireWhilePending);
    }
    Ok(())
}

// An own cell, with the own buffer empty.
#[inline(always)]
#[tactic(auto, unfolding(crate::specs::Rules::release_breaks, machine::specs::Effect::guard))]
fn release(t: usize, h: Held, q: &Queue) -> Result<(), Breach>
    ensures { test_of breach_number result ≡ release_breaks t h q.now }
{
    if !h.is_own(t) {
        return Err(Breach::ReleaseOfOthers);
    }
    if q.count != 0 {
        return Err(Breach::ReleaseWhilePending);
    }
    Ok(())
}

// Which rule an action of row t breaks, of whose cell so much is held; `elsewhere` says whether a store to the cell pends with another thread. Row and
// holding are two parameters of each rule, as of the definition that its clause names.
#[inline(always)]
#[tactic(auto, unfolding(crate::specs::Rules::broken_of))]
pub fn broken(t: usize, h: Held, q: &Queue, elsewhere: bool, action: Action) -> Result<(), Breach>
    ensures { test_of breach_number result ≡ broken_of t h q.now elsewhere action }
{
    match action {
        Action::Read { .. } => load(t, h),
        Action::Store { .. } | Action::Swap { .. } => store(t, h),
        Action::Acquire { .. } => acquire(t, h, elsewhere),
        Action::Release { .. } => release(t, h, q),
        Action::Fence | Action::Silent { .. } | Action::End => Ok(()),
    }
}

// The same for the next instruction of row t. The other buffers are searched for an ACQUIRE alone.
#[inline(always)]
#[tactic(auto, unfolding(crate::specs::Rules::broken_of))]
pub fn allowed(s: &State, t: usize, h: Held, next: Next) -> Result<(), Breach>
    requires { Rows s.now.queues s.now.threads × (t < THREADS) }
    ensures { test_of breach_number result ≡ broken_of t h (queue_of s.now t) (elsewhere_of s.now.queues s.now.threads t next.instruction.cell) next.action }
{
    let q = &s.queues[t];
    match next.action {
        Action::Acquire { .. } => {
            let elsewhere = elsewhere::is_elsewhere(s, t, u32::from(next.instruction.cell));
            broken(t, h, q, elsewhere, next.action)
        }
        _ => broken(t, h, q, false, next.action),
    }
}
