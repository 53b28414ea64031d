// The open groups: one array of numbers, of which the first `depth` are open, the innermost last. 0 is a group of its own, n the nth
// element of an array. A draft has fewer elements than bytes, so that 16 bits are enough: the array is cleared in every call.
// An element stays a number, and a group 0, since `begin_group` and the definitions tell the open groups as such (specs/Stepping.antt).
// How many are open is no part of the array, but of the state, which a refused token leaves as it was: else it would have to be set back.
ghost use Rattle.std.specs.Prelude.{◌≡◌, ◌∷◌, ℕ, ◌+◌, ◌<◌, ◌≤◌, length, slice_get};
ghost use Rattle.entities.specs.Stepping.{open_groups};

// The innermost, where one is open.
pub fn top(groups: &[u16], depth: usize) -> Option<u16>
    requires { (depth ≤ 64) × (length groups.now ≡ 64) }
    ensures { result ≡ slice_get (open_groups groups.now depth) 0 }
{
    groups[..depth].last().copied()
}

// One more, the innermost.
pub fn push(groups: &mut [u16], depth: usize, number: u16)
    requires { (depth < 64) × (length groups.old ≡ 64) }
    ensures { open_groups groups.new (depth + 1) ≡ number ∷ open_groups groups.old depth }
{
    groups[depth] = number;
}
