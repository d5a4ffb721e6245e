// The labels of a sheet: a joint's label off the opened sheet, and labels as text.
#![tactic(auto)]

pub mod lines;
pub mod opened;
