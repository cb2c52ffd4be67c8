// What the other crates count, keep and compare lists with is definitions and laws; the code is one function.
#![tactic(auto)]

ghost use Rattle.std.specs.Prelude.{◌≡◌, ◌++◌, ◌≤◌, length, drop};

// The list, at the front of out.
pub fn copy_list<T: Copy>(c: &[T], out: &mut [T])
    requires { length c.now ≤ length out.old }
    ensures { out.new ≡ c.now ++ drop (length c.now) out.old }
{
    out[..c.len()].copy_from_slice(c);
}
