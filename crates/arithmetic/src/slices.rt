// Copies of slices, for every layer above.
ghost use Rattle.std.specs.Prelude.{◌≡◌, ◌≤◌, ◌++◌, length, drop};

// What stands in `from`, in the first places; the others stay. A loop, since the library's copy of a slice
// asks the host for memmove, which nothing else here needs.
pub fn copy<T: Copy>(from: &[T], to: &mut [T])
    requires { length from.now ≤ length to.old }
    ensures { to.new ≡ from.now ++ drop (length from.now) to.old }
{
    for k in 0..from.len() {
        to[k] = from[k];
    }
}
