// The stepping call by value: a state and an item byte, whatever they hold. 10 first, then 8, then the checked step.
ghost use Rattle.std.specs.Prelude.{◌≡◌};
ghost use Rattle.reader.specs.Range.{Shaped};
ghost use Rattle.stepping.specs.Step.{answer_to, stepped_of};
ghost use Rattle.stepping.specs.declared.step.Refusal.TheVariants.{Stopped};

use crate::range;
use discipline::breach::Reason;
use discipline::check::Answer;
use discipline::step;
use reader::rules;
use reader::state::State;

// Why an item is not taken.
#[derive(Clone, Copy, Debug, PartialEq, Eq)]
pub enum Refusal {
    // The lent state is out of range.
    OutOfRange,
    // The byte is no item of the state's threads.
    NoItem,
    // The checked machine stops it.
    Stopped(Reason),
}

impl From<Reason> for Refusal {
    ghost from_gives = { λ reason refusal. refusal ≡ Stopped reason };

    fn from(reason: Reason) -> Self {
        Refusal::Stopped(reason)
    }
}

// The answer, and the state after the call: the one that was lent, unless the number is 0.
#[derive(Clone, Copy)]
pub struct After {
    pub state: State,
    pub answer: Answer,
}

// Place and thread of an item that was taken, or not.
#[tactic(auto, unfolding(crate::specs::Step::answered_of))]
fn answered(item: u8, taken: Result<(), Refusal>) -> Answer
    ensures { result ≡ answer_to item taken }
{
    match taken {
        Ok(()) => Answer::of(0, 1),
        Err(Refusal::OutOfRange) => Answer::of(10, 0),
        Err(Refusal::NoItem) => Answer::of(8, 0),
        Err(Refusal::Stopped(reason)) => Answer::stopped(reason, 0, item),
    }
}

// The item on the state, in place.
fn take(s: &mut State, item: u8) -> Result<(), Refusal>
    requires { Shaped s.old }
    ensures { record { answer = answer_to item result; state = s.new } ≡ stepped_of s.old item }
{
    if !range::is_in_range(s) {
        return Err(Refusal::OutOfRange);
    }
    if !rules::item_fits(s.threads, usize::from(item)) {
        return Err(Refusal::NoItem);
    }
    step::stepped(s, item)?;
    Ok(())
}

pub fn stepped(s: State, item: u8) -> After
    ensures { result ≡ stepped_of s item }
{
    let mut state = s;
    let answer = answered(item, take(&mut state, item));
    After { state, answer }
}
