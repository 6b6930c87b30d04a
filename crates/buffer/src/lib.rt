// Bytes read by place and written to the output buffer. `out` and `at` stay two parameters: C lends the buffer as a slice, and the
// clauses of each call speak of it before and after.
#![tactic(auto)]

ghost use Rattle.std.specs.Prelude.{◌+◌, ◌≤◌, ◌<◌, ◌≡◌, ◌∷◌, [], ◌++◌, length, drop, replicate};
ghost use Rattle.buffer.specs.Buffer.{byte_at, Wrote};

// The byte at a place, or 0 past the end.
pub fn byte_at(s: &[u8], i: usize) -> u8
    ensures { result ≡ byte_at s.now i }
{
    s.get(i).copied().unwrap_or(0)
}

// Writes one byte, and answers the place after it.
pub fn put(out: &mut [u8], at: usize, b: u8) -> usize
    requires { at < length out.old }
    ensures { Wrote (b ∷ []) at result out.old out.new }
{
    out[at] = b;
    at + 1
}

// Writes bytes, and answers the place after them. One by one: `copy_from_slice` would have the library for C ask for `memmove`.
pub fn copy(s: &[u8], out: &mut [u8], at: usize) -> usize
    requires { at + length s.now ≤ length out.old }
    ensures { Wrote s.now at result out.old out.new }
{
    for (i, b) in s.iter().enumerate() {
        out[at + i] = *b;
    }
    at + s.len()
}

// Zeroes the first bytes.
pub fn clear(out: &mut [u8], count: usize)
    requires { count ≤ length out.old }
    ensures { out.new ≡ replicate count 0 ++ drop count out.old }
{
    out[..count].fill(0);
}
