// The run of a program.
#![tactic(auto)]

pub mod run;
