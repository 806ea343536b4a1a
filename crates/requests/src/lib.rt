// Refusals 6 to 9: the source and the destination of a request on a marking.
#![tactic(auto)]

ghost use Rattle.std.specs.Prelude.{◌≡◌};
ghost use Rattle.mesh.specs.Tests.{first};
ghost use Rattle.mesh.specs.Numbers.{checked_number};
ghost use Rattle.mesh.specs.Requests.{unserved, place_tests, trip_tests, request_tests};
ghost use Rattle.nodes.specs.Sized.{OnMesh};

use blocks::Marks;
use mesh::{Heading, Network, Place, Refusal};
use nodes::Nodes;
use parity::turns_west;

// Refusals 6 and 7, in this order: source or destination off the mesh; source or destination in a block.
#[tactic(auto, unfolding(mesh::specs::Requests::place_tests, mesh::specs::Requests::off_mesh, mesh::specs::Requests::in_block, mesh::specs::Mesh::on_mesh, mesh::specs::Tests::first))]
pub fn check_places(nodes: &Nodes, s: Place, d: Place) -> Result<(), Refusal>
    ensures { checked_number result ≡ first (place_tests nodes.now s d) }
{
    if !nodes.has(s) || !nodes.has(d) {
        return Err(Refusal::OffMesh);
    }
    if nodes.is_bad(s) || nodes.is_bad(d) {
        return Err(Refusal::InBlock);
    }
    Ok(())
}

// Refusals 6 to 8: then a block near the destination in its row.
pub fn check_trip(marks: &Marks, s: Place, d: Place) -> Result<(), Refusal>
    ensures { checked_number result ≡ first (trip_tests marks.now s d) }
{
    check_places(&marks.nodes, s, d)?;
    if marks.is_block_near_in_row(d) {
        return Err(Refusal::BlockNearInRow);
    }
    Ok(())
}

// What refusal 9 comes to: NW and SW are forbidden in the source's column, and its west neighbour is in a block and the destination in another
// row or to the west, or it is column 0 and the destination in another row.
#[tactic(auto, unfolding(mesh::specs::Requests::unserved, mesh::specs::Walk::shut_in, mesh::specs::Walk::meets_edge, mesh::specs::Rules::blocked))]
fn is_unserved(network: Network, nodes: &Nodes, s: Place, d: Place) -> bool
    requires { OnMesh nodes.now s }
    ensures { result ≡ unserved network nodes.now s d }
{
    !turns_west(network, s.column)
        && ((nodes.is_bad_ahead(s, Heading::West, 1) && (s.row != d.row || d.column < s.column))
            || (s.column.0 == 0 && s.row != d.row))
}

// Refusals 6 to 9.
pub fn check_request(network: Network, marks: &Marks, s: Place, d: Place) -> Result<(), Refusal>
    ensures { checked_number result ≡ first (request_tests network marks.now s d) }
{
    check_trip(marks, s, d)?;
    if is_unserved(network, &marks.nodes, s, d) {
        return Err(Refusal::Unlawful);
    }
    Ok(())
}
