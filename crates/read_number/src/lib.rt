#![tactic(auto)]

ghost use Rattle.std.specs.Prelude.{◌≡◌, true, ◌+◌, ◌-◌, ◌≤◌, length, drop, get_or, take_while, Some, None, IfSome};
ghost use Rattle.forms.specs.Form.{is_digit, leading};
ghost use Rattle.forms.specs.Lines.{has_feed};
ghost use Rattle.read_number.specs.Number.{max_number, number_with, number_read};

// A number's value, or none where it has more than four digits or a needless zero (question 4), and the place past its digits.
#[derive(Clone, Copy)]
pub struct Number {
    pub value: Option<u16>,
    pub next: usize,
}

fn digit(b: u8) -> u16
    requires { is_digit b ≡ true }
    ensures { (result ≡ b - 48) × (result ≤ 9) }
{
    (b - b'0') as u16
}

// A number that question 4 lets pass.
fn plain(value: u16, next: usize) -> Number
    ensures { result ≡ number_with (Some value) next }
{
    Number {
        value: Some(value),
        next,
    }
}

// How many digits a text starts with.
fn digits(s: &[u8]) -> usize
    ensures { result ≡ length (take_while is_digit s.now) }
{
    s.iter().take_while(|b| b.is_ascii_digit()).count()
}

// A number that question 4 does not let pass.
fn faulty(s: &[u8], at: usize) -> Number
    requires { has_feed (drop at s.now) ≡ true }
    ensures { result ≡ number_with None (at + length (leading (drop at s.now))) }
{
    Number {
        value: None,
        next: at + digits(&s[at..]),
    }
}

// The number whose first digit stands at a place, before a line feed.
// stays: digit by digit and without a loop, for most numbers have one digit or two.
pub fn number_at(s: &[u8], at: usize) -> Number
    requires { (has_feed (drop at s.now) ≡ true) × (is_digit (get_or s.now at 0) ≡ true) }
    ensures value { result ≡ number_read (leading (drop at s.now)) at }
    ensures value_le_max_number { IfSome result.value (λ v. v ≤ max_number) }
{
    let one = digit(s[at]);
    let second = s[at + 1];
    if !second.is_ascii_digit() {
        return plain(one, at + 1);
    }
    if one == 0 {
        return faulty(s, at);
    }
    let two = one * 10 + digit(second);
    let third = s[at + 2];
    if !third.is_ascii_digit() {
        return plain(two, at + 2);
    }
    let three = two * 10 + digit(third);
    let fourth = s[at + 3];
    if !fourth.is_ascii_digit() {
        return plain(three, at + 3);
    }
    if s[at + 4].is_ascii_digit() {
        return faulty(s, at);
    }
    plain(three * 10 + digit(fourth), at + 4)
}
