// A packet's hop: whether it is lawful, and the packet after it.
#![tactic(auto)]

ghost use Rattle.std.specs.Prelude.{◌≡◌, ◌≤◌, ◌<◌};
ghost use Rattle.mesh.specs.Mesh.{place};
ghost use Rattle.mesh.specs.Nodes.{bad};
ghost use Rattle.mesh.specs.Hops.{stays, is_there};
ghost use Rattle.nodes.specs.Sized.{OnMesh};
ghost use Rattle.hops.specs.Moved.{row_by, column_by, moved_by, Lands, Reaches, Free};
ghost use Rattle.hops.specs.Tests.{Tests, entered};

use headings::is_last;
use mesh::{Column, Heading, Mistake, Network, Packet, Place, Row, TurnRule};
use nodes::Nodes;
use turns::{hop_breaks, turns_back};

// Whether the hop stays on the mesh.
#[tactic(auto, unfolding(mesh::specs::Hops::stays))]
fn stays(nodes: &Nodes, p: Place, h: Heading) -> bool
    requires { OnMesh nodes.now p }
    ensures { result ≡ stays nodes.now.columns nodes.now.rows h p.row.0 p.column.0 }
{
    match h {
        Heading::East => p.column.0 + 1 < nodes.columns,
        Heading::North => p.row.0 + 1 < nodes.rows,
        Heading::South => 1 <= p.row.0,
        Heading::West => 1 <= p.column.0,
    }
}

// The place n hops that way.
#[tactic(auto, unfolding(crate::specs::Moved::row_by, crate::specs::Moved::column_by))]
fn place_by(p: Place, h: Heading, n: u32) -> Place
    requires { Lands h n p.row.0 p.column.0 }
    ensures { result ≡ place (row_by h n p.row.0) (column_by h n p.column.0) }
{
    match h {
        Heading::East => Place {
            column: Column(p.column.0 + n),
            ..p
        },
        Heading::North => Place {
            row: Row(p.row.0 + n),
            ..p
        },
        Heading::South => Place {
            row: Row(p.row.0 - n),
            ..p
        },
        Heading::West => Place {
            column: Column(p.column.0 - n),
            ..p
        },
    }
}

// The packet after n hops that way.
#[tactic(auto, unfolding(crate::specs::Moved::moved_by))]
pub fn moved_by(p: Packet, h: Heading, n: u32) -> Packet
    requires { Lands h n p.place.row.0 p.place.column.0 }
    ensures { result ≡ moved_by h n p }
{
    Packet {
        place: place_by(p.place, h, n),
        last: Some(h),
        ..p
    }
}

// How many of the next n nodes that way lie before the first bad one.
pub fn count_free(nodes: &Nodes, s: Place, h: Heading, n: u32) -> u32
    requires { Reaches nodes.now.columns nodes.now.rows h n s.row.0 s.column.0 }
    ensures { Free (bad nodes.now) h n s.row.0 s.column.0 result }
{
    // Opens the nodes: what is true of their size is known from here on.
    let _ = &nodes.columns;
    for k in 0..n {
        if nodes.is_bad_node(place_by(s, h, k + 1)) {
            return k;
        }
    }
    n
}

// The last test of a hop, of the packet after it: whether it enters a block.
#[tactic(auto, unfolding(crate::specs::Tests::entered))]
fn enter(nodes: &Nodes, after: Packet) -> Result<Packet, Mistake>
    requires { OnMesh nodes.now after.place }
    ensures { result ≡ entered nodes.now after }
{
    if nodes.is_bad_node(after.place) {
        Err(Mistake::EntersBlock)
    } else {
        Ok(after)
    }
}

// What is wrong with a hop, tested in the order of the paper. A hop straight on makes no turn.
pub fn test_hop(network: Network, nodes: &Nodes, p: Packet, h: Heading) -> Result<Packet, Mistake>
    requires { OnMesh nodes.now p.place }
    ensures { Tests network nodes.now p h result }
{
    let _ = &nodes.columns;
    if !stays(nodes, p.place, h) {
        return Err(Mistake::LeavesMesh);
    }
    let after = moved_by(p, h, 1);
    if is_last(p.last, h) {
        return enter(nodes, after);
    }
    if turns_back(p.last, h) {
        return Err(Mistake::Reverses);
    }
    match hop_breaks(network, p.last, h, p.place.column) {
        Some(TurnRule::Rule1) => Err(Mistake::BreaksRule1),
        Some(TurnRule::Rule2) => Err(Mistake::BreaksRule2),
        None => enter(nodes, after),
    }
}

// Whether the packet is at its destination.
#[tactic(auto, unfolding(mesh::specs::Hops::is_there))]
pub fn is_there(p: Packet) -> bool
    ensures { result ≡ is_there p }
{
    p.place == p.destination
}
