// "Route" for programs in C and Rust (c/pinduguil.h).
#![tactic(auto)]

ghost use Rattle.mesh.specs.Mesh.{place};
ghost use Rattle.c_routing.specs.Numbers.{RoutesInNumbers};

use mesh::Network;
use numbers::{NO_REQUEST, answer_code, place_of};
use routing::route;

#[tactic(auto, unfolding(mesh::specs::Numbers::network_read))]
pub fn pinduguil_route(
    network: u32,
    columns: u32,
    rows: u32,
    map: &[u8],
    source_row: u32,
    source_column: u32,
    row: u32,
    column: u32,
    out: &mut [u8],
) -> u32
    ensures { RoutesInNumbers network columns rows map.now (place source_row source_column) (place row column) out.old result out.new }
{
    let Ok(network) = Network::try_from(network) else {
        return NO_REQUEST;
    };
    let s = place_of(source_row, source_column);
    let d = place_of(row, column);
    answer_code(route(network, columns, rows, map, s, d, out))
}
