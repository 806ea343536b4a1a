// "Judge a hand-in" for programs in C and Rust (c/pinduguil.h).
#![tactic(auto)]

ghost use Rattle.mesh.specs.Mesh.{place};
ghost use Rattle.c_judging.specs.Numbers.{JudgesInNumbers};

use buffers::put_first;
use judging::judge;
use mesh::Network;
use numbers::{NO_REQUEST, judged_code, judged_index, place_of};

#[tactic(auto, unfolding(mesh::specs::Numbers::network_read))]
pub fn pinduguil_judge(
    network: u32,
    columns: u32,
    rows: u32,
    map: &[u8],
    source_row: u32,
    source_column: u32,
    row: u32,
    column: u32,
    letters: &[u8],
    index: &mut [u64],
) -> u32
    ensures { JudgesInNumbers network columns rows map.now (place source_row source_column) (place row column) letters.now index.old result index.new }
{
    let Ok(network) = Network::try_from(network) else {
        return NO_REQUEST;
    };
    let s = place_of(source_row, source_column);
    let d = place_of(row, column);
    let answer = judge(network, columns, rows, map, s, d, letters);
    put_first(judged_index(answer), index);
    judged_code(answer)
}
