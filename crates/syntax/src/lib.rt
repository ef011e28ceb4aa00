// The bench's lines: the call that a line of input names, and the line that is printed (paper 01, "Bench cases").
#![tactic(auto)]

mod decimal;
mod form;
pub mod line;
pub mod print;
mod values;
