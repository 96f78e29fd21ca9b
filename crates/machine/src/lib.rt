#![tactic(auto)]

// The middle layer: the machine with store buffers, without any rule of ownership, and the machine of one memory.
pub mod action;
pub mod buffer;
pub mod effect;
pub mod hurdle;
pub mod integer;
pub mod plain;
pub mod run;
pub mod step;
