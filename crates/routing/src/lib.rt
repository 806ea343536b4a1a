// The operation "Route".
#![tactic(auto)]

ghost use Rattle.mesh.specs.Routing.{Routes};
ghost use Rattle.routing.specs.Marked.{RoutesOn};

use blocks::Marks;
use marking::mark_in;
use mesh::{Network, Packet, Place, Refusal};
use requests::check_request;
use walk::{has_room, straight};

// Route on a marking already made: refusals 6 to 10, then the letters.
pub fn route_marked(
    network: Network,
    marks: &Marks,
    s: Place,
    d: Place,
    out: &mut [u8],
) -> Result<u32, Refusal>
    ensures { RoutesOn network marks.now s d out.old result out.new }
{
    check_request(network, marks, s, d)?;
    let nodes = &marks.nodes;
    let _ = &nodes.columns;
    let fresh = Packet {
        place: s,
        last: None,
        destination: d,
    };
    if !has_room(network, nodes, fresh, out.len()) {
        return Err(Refusal::Room);
    }
    Ok(straight(network, nodes, fresh, out, 0))
}

// Route: writes the letters of the hops, and answers their number.
pub fn route(
    network: Network,
    columns: u32,
    rows: u32,
    map: &[u8],
    s: Place,
    d: Place,
    out: &mut [u8],
) -> Result<u32, Refusal>
    ensures { Routes network columns rows map.now s d out.old result out.new }
{
    let mut marks = [0; 4096];
    let marks = mark_in(columns, rows, map, &mut marks)?;
    route_marked(network, &marks, s, d, out)
}
