// One hop of a packet, from record to record: what "Move on" does, by value.
#![tactic(auto)]

ghost use Rattle.mesh.specs.Tests.{first};
ghost use Rattle.mesh.specs.Requests.{trip_tests};
ghost use Rattle.mesh.specs.Moving.{MovesOn};
ghost use Rattle.steps.specs.Marked.{Moves, answer_of, record_of};

use blocks::Marks;
use hops::{is_there, test_hop};
use marking::mark_in;
use mesh::{Network, Packet, Refusal, Stepped};
use requests::check_trip;
use rules::hop;

// On a marking: refusals 6 to 8, then none where the packet has arrived, then the packet after the hop by the rules, or refusal 9.
fn hop_marked(network: Network, marks: &Marks, p: Packet) -> Result<Option<Packet>, Refusal>
    ensures { Moves (first (trip_tests marks.now p.place p.destination)) network marks.now p (answer_of result) (record_of p result) }
{
    check_trip(marks, p.place, p.destination)?;
    if is_there(p) {
        return Ok(None);
    }
    let h = hop(network, &marks.nodes, p);
    match test_hop(network, &marks.nodes, p, h) {
        Ok(after) => Ok(Some(after)),
        Err(_) => Err(Refusal::Unlawful),
    }
}

// The same on a map, whose refusals 1 to 5 come before.
fn hop_mapped(
    network: Network,
    columns: u32,
    rows: u32,
    map: &[u8],
    p: Packet,
) -> Result<Option<Packet>, Refusal>
    ensures { MovesOn network columns rows map.now p (answer_of result) (record_of p result) }
{
    let mut marks = [0u8; 4096];
    let marks = mark_in(columns, rows, map, &mut marks)?;
    hop_marked(network, &marks, p)
}

// One hop of a packet, from record to record.
pub fn step(network: Network, columns: u32, rows: u32, map: &[u8], packet: Packet) -> Stepped
    ensures { MovesOn network columns rows map.now packet result.moved result.packet }
{
    match hop_mapped(network, columns, rows, map, packet) {
        Ok(Some(after)) => Stepped {
            packet: after,
            moved: Ok(after.last),
        },
        Ok(None) => Stepped {
            packet,
            moved: Ok(None),
        },
        Err(why) => Stepped {
            packet,
            moved: Err(why),
        },
    }
}
