// "Mark blocks" for programs in C and Rust (c/pinduguil.h).
#![tactic(auto)]

ghost use Rattle.c_marking.specs.Numbers.{MarksInNumbers};

use buffers::put_first;
use marking::mark_blocks;
use numbers::answer_code;

// The number of rounds goes first into what is lent for it, if there is room; on a refusal nothing does.
pub fn pinduguil_mark(
    columns: u32,
    rows: u32,
    map: &[u8],
    out: &mut [u8],
    rounds: &mut [u64],
) -> u32
    ensures { MarksInNumbers columns rows map.now out.old rounds.old result out.new rounds.new }
{
    let answer = mark_blocks(columns, rows, map, out);
    if let Ok(marked) = answer {
        put_first(u64::from(marked.rounds), rounds);
    }
    answer_code(answer.map(|marked| marked.blocks))
}
