// The entries for other languages: slices and numbers in, and a reply that is a struct of numbers by value (`tugrokt_replies`). Nothing but the lent rooms is
// written.
// stays: an entry for each name, house and query, and a slice for each list; that is the C interface.
#![tactic(auto)]

pub mod answering;
pub mod deciding;
pub mod merging;
pub mod planning;
pub mod printing;
pub mod reading;
pub mod seating;
pub mod writing;
