// The packed sheet: where items and rules end, whole sheets with their refusals, and writing back.
#![tactic(auto)]

pub mod back;
pub mod check;
pub mod end;
pub mod rule;
