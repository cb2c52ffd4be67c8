// The loader number that a word of the program names.
#![tactic(auto)]

ghost use Rattle.std.specs.Prelude.{◌≡◌, true, ◌+◌, ◌-◌, ◌*◌, suc, ◌≤◌};
ghost use Rattle.sheet.specs.Sizes.{max_loader};
ghost use Rattle.forms.specs.Form.{is_digit};
ghost use Rattle.wave_loader.specs.Named.{capped, loader_named};

use sheet::Sheet;

// The least number that no loader has.
const TOO_GREAT: u16 = Sheet::MAX_LOADER + 1;

// A number with one digit more.
fn with_digit(number: u16, b: u8) -> u16
    requires { (number ≤ suc max_loader) × (is_digit b ≡ true) }
    ensures { result ≡ capped (number * 10 + (b - 48)) }
{
    let grown = number as u32 * 10 + (b - b'0') as u32;
    grown.min(TOO_GREAT as u32) as u16
}

// What a word names: a number, or none where it is not all digits. A number that no loader has comes as the least such one, so that it is never cut to one
// that a loader has, however many digits it has.
pub fn loader_of(word: &[u8]) -> Option<u16>
    ensures { result ≡ loader_named word.now }
{
    if word.is_empty() {
        return None;
    }
    let mut number: u16 = 0;
    for &b in word {
        if !b.is_ascii_digit() {
            return None;
        }
        number = with_digit(number, b);
    }
    Some(number)
}
