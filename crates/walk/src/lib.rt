// The walk by the hop rules. It is followed in two modes that hand over to each other: straight travel, and travel round a block.
#![tactic(auto)]

ghost use Rattle.std.specs.Prelude.{◌≡◌, false, leb, length, replicate};
ghost use Rattle.mesh.specs.Headings.{letter};
ghost use Rattle.hops.specs.Moved.{moved_by, Lands};
ghost use Rattle.buffers.specs.Over.{over};
ghost use Rattle.travel.specs.Straight.{goes_straight};
ghost use Rattle.walk.specs.Following.{rest, Going, Follows};

use buffers::fill;
use headings::letter;
use hops::{is_there, moved_by};
use mesh::{Heading, Network, Packet};
use nodes::Nodes;
use rules::go_round;
use travel::{is_straight, next_leg};

// No route has more hops, on any mesh: so many bytes have room for the letters of each.
pub const MOST_HOPS: usize = 4034;

// The packet after n hops that way, whose letters are written from index made on, as far as there is room for them.
fn advance(p: Packet, h: Heading, n: u32, out: &mut [u8], made: u32) -> Packet
    requires { Lands h n p.place.row.0 p.place.column.0 }
    ensures { (result ≡ moved_by h n p) × (out.new ≡ over out.old made (replicate n (letter h))) }
{
    fill(out, made as usize, n as usize, letter(h));
    moved_by(p, h, n)
}

// Straight travel, leg by leg, and the number of hops in the end: along the destination's row by rule 2, in a column toward it by rule 5. Where
// either rule leads off that way the packet goes round.
#[cycle(round_block_straight)]
pub fn straight(network: Network, nodes: &Nodes, packet: Packet, out: &mut [u8], begun: u32) -> u32
    requires { Going network nodes.now packet begun }
    ensures { Follows network nodes.now packet out.old begun result out.new }
{
    let _ = &nodes.columns;
    let mut p = packet;
    let mut made = begun;
    while !is_there(p) {
        if !is_straight(p) {
            return round_block(network, nodes, p, out, made);
        }
        let leg = next_leg(network, nodes, p);
        p = advance(p, leg.heading, leg.hops, out, made);
        made += leg.hops;
    }
    made
}

// Travel round a block, hop by hop: away from the destination's row by rule 3, to the side by rules 4 and 6, until a hop leads toward that
// row or into it. Then straight on.
#[cycle(round_block_straight)]
fn round_block(network: Network, nodes: &Nodes, packet: Packet, out: &mut [u8], begun: u32) -> u32
    requires { Going network nodes.now packet begun × (goes_straight packet ≡ false) }
    ensures { Follows network nodes.now packet out.old begun result out.new }
{
    let _ = &nodes.columns;
    let mut p = packet;
    let mut made = begun;
    loop {
        let h = go_round(network, nodes, p);
        p = advance(p, h, 1, out, made);
        made += 1;
        if is_straight(p) {
            return straight(network, nodes, p, out, made);
        }
    }
}

// Whether the hops from here to the destination fit into so many bytes. For less room than any route needs they are counted first, and
// written nowhere.
pub fn has_room(network: Network, nodes: &Nodes, packet: Packet, room: usize) -> bool
    requires { Going network nodes.now packet 0 }
    ensures { result ≡ leb (length (rest 0 network nodes.now packet)) room }
{
    MOST_HOPS <= room || straight(network, nodes, packet, &mut [], 0) as usize <= room
}
