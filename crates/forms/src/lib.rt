// The grammar of sheets and answers: definitions and laws, and whose sheets there are.
#![tactic(auto)]

// Whose format a sheet is written in: our own, or that of the partner house, which sends starts and lengths and knows only ceilings.
// stays: an enum that is matched where the two houses differ, in reading, writing and the program; closures for each would say no more.
#[derive(Clone, Copy)]
pub enum House {
    Ours,
    Partner,
}
