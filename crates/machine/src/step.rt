// Steps of the machine with buffers, in place: what a row is at, whether it may go on, and what it then does.
ghost use Rattle.std.specs.Prelude.{◌≡◌, ◌<◌, true, IfOk, IfErr};
ghost use Rattle.reader.specs.Range.{InRange};
ghost use Rattle.reader.specs.Rules.{item_fits};
ghost use Rattle.machine.specs.declared.hurdle.Hurdle.TheVariants.{AtEnd};
ghost use Rattle.machine.specs.Hurdle.{number_of, outcome_of};
ghost use Rattle.machine.specs.Run.{taken_of};
ghost use Rattle.machine.specs.Step.{IsNext, IsEnded, Ready, take_step, drain_step, step_of};

use crate::action::Action;
use crate::effect;
use crate::effect::Seen;
use crate::hurdle::Hurdle;
use reader::item::Item;
use reader::state::{Instruction, State};

// The instruction that a row is at, what it finds, and what it is.
#[derive(Clone, Copy)]
pub struct Next {
    pub instruction: Instruction,
    pub seen: Seen,
    pub action: Action,
}

// What row t is at; nothing at the end of its program.
#[inline(always)]
pub fn fetched(s: &State, t: usize) -> Result<Next, Hurdle>
    requires { InRange s.now × (t < s.now.threads) }
    ensures next { IfOk result (λ n. IsNext s.now t n) }
    ensures ended { IfErr result (λ h. IsEnded s.now t h) }
{
    let at = s.positions[t];
    if at >= s.counts[t] {
        return Err(Hurdle::AtEnd);
    }
    let instruction = s.code[effect::code_place(t, at)];
    let seen = Seen::of(s, t, instruction);
    let action = Action::of(instruction, at, seen.content);
    Ok(Next {
        instruction,
        seen,
        action,
    })
}

// Carries out what row t is at, where nothing holds it back. Gives back what it read, or 0.
#[inline(always)]
pub fn carry_out(s: &mut State, t: usize, next: Next) -> i32
    requires { Ready s.old t next }
    ensures { taken_of s.new result ≡ take_step s.old t }
{
    let e = effect::change(next.seen, &s.queues[t], next.action);
    effect::apply(s, t, next.instruction, e);
    e.value
}

// The next instruction of row t: what it read, or what holds it back, with the state as it was.
pub fn take(s: &mut State, t: usize) -> Result<i32, Hurdle>
    requires { InRange s.old × (t < s.old.threads) }
    ensures { outcome_of number_of s.new result ≡ take_step s.old t }
{
    let next = fetched(s, t)?;
    effect::allowed(s.depth, &s.queues[t], next.action)?;
    Ok(carry_out(s, t, next))
}

// The oldest pending store of row t goes to memory; nothing is read.
#[inline(always)]
#[tactic(auto, unfolding(crate::specs::Step::drain_step, crate::specs::Effect::guard, crate::specs::Run::unless), using(crate::proofs::Take::row_drainable))]
pub fn drain(s: &mut State, t: usize) -> Result<i32, Hurdle>
    requires { InRange s.old × (t < s.old.threads) }
    ensures { outcome_of number_of s.new result ≡ drain_step s.old t }
{
    if s.queues[t].count == 0 {
        return Err(Hurdle::Empty);
    }
    s.drain(t);
    Ok(0)
}

// One item, or what holds it back.
#[tactic(auto, using(crate::proofs::Take::drain_row, crate::proofs::Take::take_row), unfolding(crate::specs::Step::step_of))]
pub fn stepped(s: &mut State, item: u8) -> Result<i32, Hurdle>
    requires { InRange s.old × (item_fits s.old.threads item ≡ true) }
    ensures { outcome_of number_of s.new result ≡ step_of s.old item }
{
    match Item::from(item) {
        Item::Take(t) => take(s, t),
        Item::Drain(t) => drain(s, t),
    }
}
