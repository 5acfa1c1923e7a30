// A program as bytes: its instructions, and the test of its form.
#![tactic(auto)]

pub mod form;
pub mod program;
