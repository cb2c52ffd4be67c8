#![tactic(auto)]

pub mod fill;
