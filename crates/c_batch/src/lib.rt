// "A whole table of sends" for programs in C and Rust (c/pinduguil.h).
#![tactic(auto)]

ghost use Rattle.c_batch.specs.Numbers.{RoutesBatchInNumbers};

use batch::route_batch;
use buffers::put_first;
use mesh::Network;
use numbers::{NO_REQUEST, refusal_of};

// The number of letters goes first into what is lent for it, if there is room; on a refusal nothing does.
#[tactic(auto, unfolding(mesh::specs::Numbers::network_read))]
pub fn pinduguil_route_batch(
    network: u32,
    columns: u32,
    rows: u32,
    map: &[u8],
    sends: &[u32],
    answers: &mut [u32],
    out: &mut [u8],
    letters: &mut [u64],
) -> u32
    ensures { RoutesBatchInNumbers network columns rows map.now sends.now answers.old out.old letters.old result answers.new out.new letters.new }
{
    let Ok(network) = Network::try_from(network) else {
        return NO_REQUEST;
    };
    let answer = route_batch(network, columns, rows, map, sends, answers, out);
    if let Ok(n) = answer {
        put_first(n as u64, letters);
    }
    refusal_of(answer)
}
