#![tactic(auto)]

// The top layer: Cohen and Schirmer's ownership discipline over the machine, the checked step, the run and the check of a whole case.
pub mod breach;
pub mod check;
pub mod elsewhere;
pub mod marks;
pub mod rules;
pub mod run;
pub mod step;
pub mod table;
