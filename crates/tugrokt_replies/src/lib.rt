// What each entry for other languages replies: a struct of numbers by value.
//
// In each reply the number is that of the question that was answered no, and the line is the one that the refusal names. What a reply does not have is
// 0. A new field stands at the end, so that the fields before it keep their places.
#![tactic(auto)]

pub mod line;
pub mod planning;
pub mod printing;
pub mod reading;
pub mod seating;
pub mod writing;
