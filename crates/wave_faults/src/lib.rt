// What is said of a refusal by 17 or 18, whose line is a place in the list of units or of rules.
#![tactic(auto)]

ghost use Rattle.std.specs.Prelude.{◌≤◌, length};
ghost use Rattle.sheet.specs.Sizes.{max_bytes};
ghost use Rattle.print_bytes.specs.Writing.{Written};
ghost use Rattle.wave_faults.specs.Fault.{fault_words};

use questions::{Question, Refusal};

// No such word is longer: a place has at most five digits.
pub const MAX_FAULT: usize = 11;

// The words from the first place on, and the place just past them.
pub fn put_fault(words: &mut [u8; MAX_FAULT], refusal: Refusal) -> usize
    requires { refusal.line ≤ max_bytes }
    ensures written { Written words.old 0 (fault_words refusal.number refusal.line) words.new result }
    ensures upper_bound { result ≤ length words.new }
{
    let place = refusal.line as u16;
    if refusal.number == Question::CarriedUnit.number() {
        print_bytes::put_one_number(words, 0, b"unit ", place, b"")
    } else if refusal.number == Question::RuleLow.number() {
        print_bytes::put_one_number(words, 0, b"rule ", place, b"")
    } else {
        0
    }
}
