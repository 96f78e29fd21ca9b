#![tactic(auto)]

// Above the discipline: one item on a state that somebody else keeps, a debugger for one. The state is judged before anything is done with it.
pub mod range;
pub mod step;
