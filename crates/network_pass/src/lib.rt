// How a pass over the middle boundaries ends.
#![tactic(auto)]

// Why a pass stopped: a diagonal entry fell below 0, so the network has a negative cycle.
#[derive(Clone, Copy)]
pub struct NegativeCycle;

pub type Outcome = Result<(), NegativeCycle>;
