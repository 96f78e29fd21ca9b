// A run of items, one after the other until one is not taken. Every machine of this product runs by this one function. The larger functions
// that an item goes through, here and in the layer above, are `inline(always)`: with the step called for each item, and its answer in memory, a run takes up
// to one and a half times as long.
ghost use Rattle.std.specs.Prelude.{◌≡◌, ◌≢◌, ℕ, ◌≤◌, length, IfErr, OnOk, OnErr};
ghost use Rattle.reader.specs.declared.state.State.{State};
ghost use Rattle.machine.specs.Hurdle.{outcome_of, ran_of};
ghost use Rattle.machine.specs.Run.{Outcome, Answers, AllTake};

use reader::state::State;

// How a run ended: how many items were taken, and why the next one was not; nothing where all were taken.
#[derive(Clone, Copy, Debug, PartialEq, Eq)]
pub struct Ended<R> {
    pub place: usize,
    pub stopped: Option<R>,
}

// A machine that takes one item at a time, in place.
pub trait Machine {
    // Why it does not take an item.
    type Reason: Copy + Drop;

    ghost number: { Self.Reason → ℕ };

    // The step as a function, and to which states an item may be given.
    ghost step: { State → ℕ → Outcome };

    ghost Takes: { State → ℕ → Type 0 };

    // One item: what it read; or why it is not taken, and the state as it was. An item that may be given stays one.
    fn step(s: &mut State, item: u8) -> Result<i32, Self::Reason>
        requires { Takes s.old item }
        ensures steps { outcome_of number s.new result ≡ step s.old item }
        ensures keeps { OnOk result ((x : ℕ) → Takes s.old x → Takes s.new x) }
        ensures stays { OnErr result (s.new ≡ s.old) }
        ensures refuses { IfErr result (λ reason. number reason ≢ 0) };
}

// Every item is taken in turn until one is not. The k-th value is what the k-th item read, or 0.
pub fn run<M: Machine>(s: &mut State, items: &[u8], values: &mut [i32]) -> Ended<M::Reason>
    requires takes { AllTake M.Takes s.old items.now }
    requires room { length items.now ≤ length values.old }
    ensures { Answers M.step s.old items.now values.old (ran_of M.number s.new result) values.new }
{
    for (k, item) in items.iter().enumerate() {
        match M::step(s, *item) {
            Ok(value) => values[k] = value,
            Err(reason) => {
                return Ended {
                    place: k,
                    stopped: Some(reason),
                };
            }
        }
    }
    Ended {
        place: items.len(),
        stopped: None,
    }
}
