// Bytes written into a lent buffer, and a number into a lent list.
#![tactic(auto)]

ghost use Rattle.std.specs.Prelude.{◌≡◌, [], ◌∷◌, ◌≤◌, ◌<◌, ◌+◌, min, length, replicate};
ghost use Rattle.buffers.specs.Over.{over, Puts, put_first};

// Writes a byte n times from index at on, as far as the buffer goes.
pub fn fill(out: &mut [u8], at: usize, n: usize, byte: u8)
    ensures { out.new ≡ over out.old at (replicate n byte) }
{
    if at < out.len() {
        let end = at + n.min(out.len() - at);
        // By a loop, which becomes one memset: the library's `fill` writes the last byte apart from the others.
        for i in at..end {
            out[i] = byte;
        }
    }
}

// Writes a byte into a buffer at index at, and answers the index after it.
pub fn put_byte(out: &mut [u8], at: usize, byte: u8) -> usize
    requires { at < length out.old }
    ensures { Puts out.old at (byte ∷ []) result out.new }
{
    out[at] = byte;
    at + 1
}

// Copies bytes into a buffer from index at on, and answers the index after them.
pub fn put(out: &mut [u8], at: usize, from: &[u8]) -> usize
    requires { at + length from.now ≤ length out.old }
    ensures { Puts out.old at from.now result out.new }
{
    let end = at + from.len();
    out[at..end].copy_from_slice(from);
    end
}

// Puts a number first into a list, if there is room for it.
pub fn put_first(x: u64, xs: &mut [u64])
    ensures { xs.new ≡ put_first x xs.old }
{
    if let Some(first) = xs.first_mut() {
        *first = x;
    }
}
