// The operation "Pick": routes on both networks, each into a buffer of its own, and the better of the two.
#![tactic(auto)]

ghost use Rattle.std.specs.Prelude.{◌≡◌};
ghost use Rattle.mesh.specs.Routing.{routed_answer};
ghost use Rattle.theory_pick.specs.Picking.{pick_of, better, PicksRoute, HandsBack};
ghost use Rattle.picking.specs.Marked.{PicksOn};

use blocks::Marks;
use marking::mark_in;
use mesh::{Network, Place, Refusal};
use numbers::refusal_of;
use routing::route_marked;
use theory_pick::Picked;

// The shorter route, the first on a tie or if only it was served; if both are refused, the first's refusal.
#[tactic(auto, unfolding(theory_pick::specs::Picking::better))]
fn better(first: Result<u32, Refusal>, second: Result<u32, Refusal>) -> Result<Picked, Refusal>
    ensures { pick_of result ≡ better (routed_answer first) (routed_answer second) }
{
    let (network, hops) = match (first, second) {
        (Err(why), Err(_)) => return Err(why),
        (Err(_), Ok(n)) => (Network::Second, n),
        (Ok(m), Ok(n)) if n < m => (Network::Second, n),
        (Ok(m), _) => (Network::First, m),
    };
    Ok(Picked { network, hops })
}

// Routes on both networks, on a marking already made: each writes its letters into its own buffer, and the answer is the better of the two.
fn pick_marked(
    marks: &Marks,
    s: Place,
    d: Place,
    first: &mut [u8],
    second: &mut [u8],
) -> Result<Picked, Refusal>
    ensures { PicksOn marks.now s d first.old second.old result first.new second.new }
{
    let one = route_marked(Network::First, marks, s, d, first);
    let two = route_marked(Network::Second, marks, s, d, second);
    better(one, two)
}

// Pick, with an answer that says which: the map is checked and marked once for both networks.
pub fn route_both(
    columns: u32,
    rows: u32,
    map: &[u8],
    s: Place,
    d: Place,
    first: &mut [u8],
    second: &mut [u8],
) -> Result<Picked, Refusal>
    ensures { PicksRoute columns rows map.now s d first.old second.old result first.new second.new }
{
    let mut marks = [0; 4096];
    let marks = mark_in(columns, rows, map, &mut marks)?;
    pick_marked(&marks, s, d, first, second)
}

// Pick: the part of the buffer that holds the better route is handed back, and refusal becomes 0; if both networks refuse, the empty part
// of the first buffer, and refusal becomes the first's.
pub fn pick<'a>(
    columns: u32,
    rows: u32,
    map: &[u8],
    s: Place,
    d: Place,
    first: &'a mut [u8],
    second: &'a mut [u8],
    refusal: &mut u32,
) -> &'a mut [u8]
    ensures { HandsBack columns rows map.now s d first.old second.old result.now refusal.new }
{
    let picked = route_both(columns, rows, map, s, d, first, second);
    *refusal = refusal_of(picked);
    match picked {
        Ok(p) => {
            let hops = p.hops as usize;
            match p.network {
                Network::First => &mut first[..hops],
                Network::Second => &mut second[..hops],
            }
        }
        Err(_) => &mut first[..0],
    }
}
