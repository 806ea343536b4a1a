// Legs: the hops that straight travel repeats, found by a look along the row or the column.
#![tactic(auto)]

ghost use Rattle.std.specs.Prelude.{◌≡◌, true, false, ◌≤◌};
ghost use Rattle.mesh.specs.declared.Network.{Network};
ghost use Rattle.mesh.specs.Rules.{side};
ghost use Rattle.mesh.specs.Hops.{trip_of, is_there};
ghost use Rattle.rules.specs.Rows.{in_its_row, nears_row};
ghost use Rattle.travel.specs.Straight.{goes_straight, BothOnMesh, Runs, Unstopped};

use hops::{count_free, moved_by};
use mesh::{Heading, Network, Packet};
use nodes::Nodes;
use rules::{again, is_in_row, is_nearing, is_stopped_by_second, side, toward};

// So many hops that way.
#[derive(Clone, Copy)]
pub struct Leg {
    pub heading: Heading,
    pub hops: u32,
}

// Whether the packet travels straight from here: along its destination's row, or in a column toward it.
pub fn is_straight(p: Packet) -> bool
    ensures { result ≡ goes_straight p }
{
    is_in_row(p) || is_nearing(p)
}

// How many of the hops to the side, along the destination's row, are made before the packet is there or stopped. Before the last free node but
// one both nodes that could stop it are free; at that one the second may.
fn count_unstopped(network: Network, nodes: &Nodes, p: Packet, heading: Heading) -> u32
    requires { BothOnMesh nodes.now p × (in_its_row p ≡ true) × (is_there p ≡ false) × (heading ≡ side (trip_of network nodes.now p) p.place.column.0) }
    ensures { Unstopped network nodes.now heading result p }
{
    let _ = &nodes.columns;
    let n = p.place.column.0.abs_diff(p.destination.column.0);
    let free = count_free(nodes, p.place, heading, n);
    if free == 0 {
        return 0;
    }
    let last = moved_by(p, heading, free - 1);
    if is_stopped_by_second(network, nodes, last, heading) {
        free - 1
    } else {
        free
    }
}

// Rule 2. In the destination's row: to the side, until the packet is there or stopped; at a stop one hop off the row.
fn row_leg(network: Network, nodes: &Nodes, p: Packet) -> Leg
    requires { BothOnMesh nodes.now p × (in_its_row p ≡ true) × (is_there p ≡ false) }
    ensures { (1 ≤ result.hops) × Runs network nodes.now result.heading result.hops p }
{
    let heading = side(p.place.column, p.destination.column);
    let hops = count_unstopped(network, nodes, p, heading);
    if 0 < hops {
        Leg { heading, hops }
    } else {
        Leg {
            heading: again(p.last),
            hops: 1,
        }
    }
}

// Rule 5. In another row, the last hop toward the destination's: on, until the packet is in it or before a block; there one hop west.
fn column_leg(nodes: &Nodes, p: Packet) -> Leg
    requires { BothOnMesh nodes.now p × (nears_row p ≡ true) × (in_its_row p ≡ false) }
    ensures { (1 ≤ result.hops) × ((network : Network) → Runs network nodes.now result.heading result.hops p) }
{
    let _ = &nodes.columns;
    let heading = toward(p.place.row, p.destination.row);
    let n = p.place.row.0.abs_diff(p.destination.row.0);
    let hops = count_free(nodes, p.place, heading, n);
    if 0 < hops {
        Leg { heading, hops }
    } else {
        Leg {
            heading: Heading::West,
            hops: 1,
        }
    }
}

// The next leg of straight travel: at least one hop. Where neither rule leads on, it is the one hop off the way.
pub fn next_leg(network: Network, nodes: &Nodes, p: Packet) -> Leg
    requires { BothOnMesh nodes.now p × (goes_straight p ≡ true) × (is_there p ≡ false) }
    ensures { (1 ≤ result.hops) × Runs network nodes.now result.heading result.hops p }
{
    if is_in_row(p) {
        row_leg(network, nodes, p)
    } else {
        column_leg(nodes, p)
    }
}
