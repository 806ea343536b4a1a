// The operation "Judge a hand-in".
#![tactic(auto)]

ghost use Rattle.std.specs.Prelude.{◌≡◌};
ghost use Rattle.mesh.specs.Hops.{at, trip_of};
ghost use Rattle.mesh.specs.Judging.{judge, judged_verdict, judgement};
ghost use Rattle.nodes.specs.Sized.{OnMesh};
ghost use Rattle.judging.specs.Marked.{judgement_on};

use headings::read_letter;
use hops::{is_there, test_hop};
use marking::mark_in;
use mesh::{Mistake, Network, NotPassed, Packet, Place};
use nodes::Nodes;
use requests::check_places;

// The letters in turn, on a marking. Inlined where the network is known: the loop then has one number less to keep.
#[inline(always)]
fn judge_letters(
    network: Network,
    nodes: &Nodes,
    packet: Packet,
    letters: &[u8],
) -> Result<usize, NotPassed>
    requires { OnMesh nodes.now packet.place }
    ensures { judged_verdict result ≡ judge (trip_of network nodes.now packet) (at packet) 0 letters.now }
{
    let mut p = packet;
    for (i, &x) in letters.iter().enumerate() {
        let h = read_letter(x).ok_or(NotPassed::Wrong(Mistake::NoLetter, i))?;
        p = test_hop(network, nodes, p, h).map_err(|m| NotPassed::Wrong(m, i))?;
    }
    if is_there(p) {
        Ok(letters.len())
    } else {
        Err(NotPassed::Wrong(Mistake::NotArrived, letters.len()))
    }
}

// On a marking: refusals 6 and 7, then the letters.
fn judge_marked(
    network: Network,
    nodes: &Nodes,
    s: Place,
    d: Place,
    letters: &[u8],
) -> Result<usize, NotPassed>
    ensures { judged_verdict result ≡ judgement_on network nodes.now s d letters.now }
{
    check_places(nodes, s, d)?;
    let fresh = Packet {
        place: s,
        last: None,
        destination: d,
    };
    match network {
        Network::First => judge_letters(Network::First, nodes, fresh, letters),
        Network::Second => judge_letters(Network::Second, nodes, fresh, letters),
    }
}

// Judge a hand-in: passed with its length, or what is wrong first and where, or refused.
pub fn judge(
    network: Network,
    columns: u32,
    rows: u32,
    map: &[u8],
    s: Place,
    d: Place,
    letters: &[u8],
) -> Result<usize, NotPassed>
    ensures { judged_verdict result ≡ judgement network columns rows map.now s d letters.now }
{
    let mut marks = [0u8; 4096];
    let marks = mark_in(columns, rows, map, &mut marks)?;
    judge_marked(network, &marks.nodes, s, d, letters)
}
