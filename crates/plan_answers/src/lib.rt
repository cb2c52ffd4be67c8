#![tactic(auto)]

// The ring of a sheet without a plan, by its length; the ring itself is in its room.
#[derive(Clone, Copy)]
pub struct Ring {
    pub length: usize,
}

// What solving a sheet of which every question is answered yes gives: a plan in the rooms (or that the sheet fits), or none and its ring. A call that asks
// first gives this, or the refusal.
pub type Fit = Result<(), Ring>;
