// The operation "Move on", on a record that is lent.
#![tactic(auto)]

ghost use Rattle.mesh.specs.Moving.{MovesOn};

use mesh::{Heading, Network, Packet, Refusal, Stepped};
use steps::step;

// Move on: the packet's record is moved by one hop, and the answer is that hop, none where it had arrived, or a refusal.
pub fn move_on(
    network: Network,
    columns: u32,
    rows: u32,
    map: &[u8],
    packet: &mut Packet,
) -> Result<Option<Heading>, Refusal>
    ensures { MovesOn network columns rows map.now packet.old result packet.new }
{
    let stepped = step(network, columns, rows, map, *packet);
    *packet = stepped.packet;
    stepped.moved
}

// The same from record to record, by lending a local to it: programs call this one.
pub fn moved_on(network: Network, columns: u32, rows: u32, map: &[u8], packet: Packet) -> Stepped
    ensures { MovesOn network columns rows map.now packet result.moved result.packet }
{
    let mut p = packet;
    let moved = move_on(network, columns, rows, map, &mut p);
    Stepped { packet: p, moved }
}
