// Bytes copied to the front of a slice, and a byte looked for.
#![tactic(auto)]

pub mod scan;

ghost use Rattle.std.specs.Prelude.{◌≡◌, ◌≤◌, ◌++◌, length, take, drop};

// The front of `to` becomes `from`; the bytes behind stay.
pub fn copy(from: &[u8], to: &mut [u8])
    requires { length from.now ≤ length to.old }
    ensures len { length to.new ≡ length to.old }
    ensures after { to.new ≡ take (length from.now) from.now ++ drop (length from.now) to.old }
{
    let n = from.len();
    to[..n].copy_from_slice(from);
}
