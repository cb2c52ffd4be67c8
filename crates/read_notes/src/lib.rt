#![tactic(auto)]

ghost use Rattle.std.specs.Prelude.{◌≡◌, ◌<◌, length, drop};
ghost use Rattle.read_notes.specs.Readers.{after_list, after_item, end_of};

// The deepest bracket of a note; its own is depth 1.
const MAX_DEPTH: usize = 16;

// The list reader: the place past the items from a place on and the bracket that closes their list, or none where brackets do not match.
#[cycle(item_end_list_end)]
pub fn list_end(s: &[u8], at: usize, depth: usize) -> Option<usize>
    ensures { result ≡ end_of (length s.now) (after_list (drop at s.now) 0 depth) }
{
    let mut here = at;
    // stays: a while, for an item is as long as its reader says.
    while here < s.len() {
        if s[here] == b')' {
            return Some(here + 1);
        }
        here = item_end(s, here, depth)?;
    }
    None
}

// The item reader: the place past a bracketed list, one deeper, or past a byte that opens none.
#[cycle(item_end_list_end)]
fn item_end(s: &[u8], at: usize, depth: usize) -> Option<usize>
    requires { at < length s.now }
    ensures { result ≡ end_of (length s.now) (after_item (drop at s.now) depth) }
{
    if s[at] != b'(' {
        return Some(at + 1);
    }
    if depth < MAX_DEPTH {
        list_end(s, at + 1, depth + 1)
    } else {
        None
    }
}
