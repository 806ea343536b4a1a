// The hop rules. Network, nodes and packet stay three arguments: the packet changes at each hop, so one value of the three would be made anew
// at each.
#![tactic(auto)]

ghost use Rattle.std.specs.Prelude.{◌≡◌, false, ◌&&◌};
ghost use Rattle.mesh.specs.declared.Network.{Network};
ghost use Rattle.mesh.specs.declared.Place.{Place};
ghost use Rattle.mesh.specs.Mesh.{Mesh};
ghost use Rattle.mesh.specs.Rules.{Trip, trip_on, blocked, side, toward, own, stopped, again, in_row, leaving, across, nearing, other_row};
ghost use Rattle.mesh.specs.Hops.{at, trip_of};
ghost use Rattle.mesh.specs.Walk.{hop_at};
ghost use Rattle.nodes.specs.Sized.{OnMesh};
ghost use Rattle.rules.specs.Rows.{in_its_row, nears_row};

use headings::{is_last, is_vertical};
use mesh::{Column, Heading, Network, Packet, Row};
use nodes::Nodes;
use parity::turns_west;

// The side of that column, from this one: E if it is greater, else W.
#[tactic(auto, unfolding(mesh::specs::Rules::side))]
pub fn side(from: Column, to: Column) -> Heading
    ensures { (t : Trip) → t.C ≡ to.0 → result ≡ side t from.0 }
{
    if from < to {
        Heading::East
    } else {
        Heading::West
    }
}

// The vertical direction from this row to that one.
#[tactic(auto, unfolding(mesh::specs::Rules::toward))]
pub fn toward(from: Row, to: Row) -> Heading
    ensures { (t : Trip) → t.R ≡ to.0 → result ≡ toward t from.0 }
{
    if from < to {
        Heading::North
    } else {
        Heading::South
    }
}

// Whether this column permits a side's own turns: EN and ES for E, NW and SW for W.
#[tactic(auto, unfolding(mesh::specs::Rules::own))]
fn is_own(network: Network, s: Heading, c: Column) -> bool
    ensures { (w : Mesh) (d : Place) → result ≡ own (trip_on network w d) s c.0 }
{
    match s {
        Heading::East => !turns_west(network, c),
        Heading::North | Heading::South => false,
        Heading::West => turns_west(network, c),
    }
}

// Whether the second node to the side h stops the packet, though the next one is free: it is in a block, and the column permits the side's own
// turns.
#[tactic(auto, unfolding(mesh::specs::Rules::blocked))]
pub fn is_stopped_by_second(network: Network, nodes: &Nodes, p: Packet, h: Heading) -> bool
    requires { OnMesh nodes.now p.place }
    ensures { result ≡ own (trip_of network nodes.now p) h p.place.column.0 && blocked (trip_of network nodes.now p) h 2 p.place.row.0 p.place.column.0 }
{
    is_own(network, h, p.place.column) && nodes.is_bad_ahead(p.place, h, 2)
}

// Whether the packet is stopped: the next node to the side is in a block, or the second one is and the column permits the side's turns.
#[tactic(auto, unfolding(mesh::specs::Rules::stopped, mesh::specs::Rules::blocked))]
pub fn is_stopped(network: Network, nodes: &Nodes, p: Packet) -> bool
    requires { OnMesh nodes.now p.place }
    ensures { result ≡ stopped (trip_of network nodes.now p) p.place.row.0 p.place.column.0 }
{
    let h = side(p.place.column, p.destination.column);
    nodes.is_bad_ahead(p.place, h, 1) || is_stopped_by_second(network, nodes, p, h)
}

// The hop at a stop in the destination's row: the last one again if it was N or S, else N.
#[tactic(auto, unfolding(mesh::specs::Rules::again))]
pub fn again(l: Option<Heading>) -> Heading
    ensures { result ≡ again l }
{
    match l {
        Some(Heading::South) => Heading::South,
        _ => Heading::North,
    }
}

// Rule 3, where the last hop h leads away from the destination's row: stopped, it is repeated, else the hop is to the side.
#[tactic(auto, unfolding(mesh::specs::Rules::leaving))]
fn leaving(network: Network, nodes: &Nodes, p: Packet, h: Heading) -> Heading
    requires { OnMesh nodes.now p.place }
    ensures { result ≡ leaving (trip_of network nodes.now p) p.place.row.0 p.place.column.0 h }
{
    if is_stopped(network, nodes, p) {
        h
    } else {
        side(p.place.column, p.destination.column)
    }
}

// Rule 2, in the destination's row: as rule 3, with the hop that a stop asks for.
#[tactic(auto, unfolding(mesh::specs::Rules::in_row, mesh::specs::Rules::leaving))]
fn in_row(network: Network, nodes: &Nodes, p: Packet) -> Heading
    requires { OnMesh nodes.now p.place }
    ensures { result ≡ in_row (trip_of network nodes.now p) p.place.row.0 p.place.column.0 p.last }
{
    leaving(network, nodes, p, again(p.last))
}

// Rules 4 (s is E) and 6 (s is W): toward the destination's row if the column permits the turn and that node isn't in a block, else s.
#[tactic(auto, unfolding(mesh::specs::Rules::across, mesh::specs::Rules::blocked))]
fn across(network: Network, nodes: &Nodes, p: Packet, s: Heading) -> Heading
    requires { OnMesh nodes.now p.place }
    ensures { result ≡ across (trip_of network nodes.now p) p.place.row.0 p.place.column.0 s }
{
    let h = toward(p.place.row, p.destination.row);
    if is_own(network, s, p.place.column) && !nodes.is_bad_ahead(p.place, h, 1) {
        h
    } else {
        s
    }
}

// Rule 5, where the last hop h leads toward the destination's row: it is repeated if that node isn't in a block, else W.
#[tactic(auto, unfolding(mesh::specs::Rules::nearing, mesh::specs::Rules::blocked))]
fn nearing(nodes: &Nodes, p: Packet, h: Heading) -> Heading
    requires { OnMesh nodes.now p.place }
    ensures { (network : Network) → result ≡ nearing (trip_of network nodes.now p) p.place.row.0 p.place.column.0 h }
{
    if nodes.is_bad_ahead(p.place, h, 1) {
        Heading::West
    } else {
        h
    }
}

// Whether the packet is in its destination's row.
#[tactic(auto, unfolding(crate::specs::Rows::in_its_row))]
pub fn is_in_row(p: Packet) -> bool
    ensures { result ≡ in_its_row p }
{
    p.place.row == p.destination.row
}

// Whether the last hop leads toward the destination's row.
pub fn is_nearing(p: Packet) -> bool
    ensures { result ≡ nears_row p }
{
    is_last(p.last, toward(p.place.row, p.destination.row))
}

// Rules 3, 4 and 6: the last hop does not lead toward the destination's row.
pub fn go_round(network: Network, nodes: &Nodes, p: Packet) -> Heading
    requires { OnMesh nodes.now p.place × (nears_row p ≡ false) }
    ensures { result ≡ other_row (trip_of network nodes.now p) p.place.row.0 p.place.column.0 p.last }
{
    match p.last {
        None => across(network, nodes, p, Heading::West),
        Some(h) if is_vertical(h) => leaving(network, nodes, p, h),
        Some(h) => across(network, nodes, p, h),
    }
}

// Rules 3 to 6, in another row than the destination's.
fn other_row(network: Network, nodes: &Nodes, p: Packet) -> Heading
    requires { OnMesh nodes.now p.place }
    ensures { result ≡ other_row (trip_of network nodes.now p) p.place.row.0 p.place.column.0 p.last }
{
    if is_nearing(p) {
        nearing(nodes, p, toward(p.place.row, p.destination.row))
    } else {
        go_round(network, nodes, p)
    }
}

// The hop by the rules, where the packet is not yet at its destination.
#[tactic(auto, unfolding(mesh::specs::Walk::hop_at, mesh::specs::Rules::hop, crate::specs::Rows::in_its_row))]
pub fn hop(network: Network, nodes: &Nodes, p: Packet) -> Heading
    requires { OnMesh nodes.now p.place }
    ensures { result ≡ hop_at (trip_of network nodes.now p) (at p) }
{
    if is_in_row(p) {
        in_row(network, nodes, p)
    } else {
        other_row(network, nodes, p)
    }
}
