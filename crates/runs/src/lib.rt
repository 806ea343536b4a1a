// Where a run of equal bytes ends.
#![tactic(auto)]

ghost use Rattle.std.specs.Prelude.{◌≡◌, ◌==◌, true, ◌&&◌, ◌≤◌, ◌<◌, fold, length};
ghost use Rattle.std.specs.List.{prefix_len};
ghost use Rattle.runs.specs.Equal.{Same, Run};

// The bytes are all x. No test ends the fold, so that many are compared at once.
fn are_all(xs: &[u8], x: u8) -> bool
    ensures { result ≡ fold (λ same y. same && (y == x)) true xs.now }
{
    xs.iter().fold(true, |same, y| same & (*y == x))
}

// How many bytes x come first.
fn count_first(xs: &[u8], x: u8) -> usize
    ensures front { result ≡ prefix_len (λ y. y == x) xs.now }
    ensures within { result ≤ length xs.now }
{
    xs.iter().take_while(|y| **y == x).count()
}

// The index after the bytes x from index i on, in whole blocks of 32.
fn skip_blocks(xs: &[u8], i: usize, x: u8) -> usize
    requires { i ≤ length xs.now }
    ensures { Same xs.now i result x }
{
    let mut j = i;
    // A loop from block to block: a chain over blocks, counted and turned into an index, is no plainer.
    while 32 <= xs.len() - j && are_all(&xs[j..j + 32], x) {
        j += 32;
    }
    j
}

// The index after the run of equal bytes that begins at index i: most end within 16 bytes.
pub fn run_end(xs: &[u8], i: usize) -> usize
    requires { i < length xs.now }
    ensures { Run xs.now i result }
{
    let x = xs[i];
    let close = xs.len().min(i + 16);
    let j = i + 1 + count_first(&xs[i + 1..close], x);
    if j < close {
        j
    } else {
        let k = skip_blocks(xs, j, x);
        k + count_first(&xs[k..], x)
    }
}
