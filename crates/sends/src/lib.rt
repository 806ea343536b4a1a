// Sends: the list of them, four numbers each, and Route for one with the output that is free.
#![tactic(auto)]

ghost use Rattle.std.specs.Prelude.{◌≡◌, ◌≤◌, ◌<◌, ◌+◌, ◌*◌, length};
ghost use Rattle.theory_batch.specs.Sends.{uneven};
ghost use Rattle.sends.specs.Sends.{send_at, wrote, route_call_on, RoutesSend};

use blocks::Marks;
use mesh::{Network, Refusal};
use numbers::place_of;
use routing::route_marked;
use theory_batch::Send;

// Whether the list isn't whole sends.
pub fn is_uneven(sends: &[u32]) -> bool
    ensures { result ≡ uneven sends.now }
{
    sends.len() % 4 != 0
}

// The send of index i.
pub fn send_at(sends: &[u32], i: usize) -> Send
    requires { 4 * i + 3 < length sends.now }
    ensures { result ≡ send_at sends.now i }
{
    let k = 4 * i;
    Send {
        source: place_of(sends[k], sends[k + 1]),
        destination: place_of(sends[k + 2], sends[k + 3]),
    }
}

// How many letters a call of Route has written.
pub fn wrote(r: Result<u32, Refusal>) -> usize
    ensures { result ≡ wrote r }
{
    r.unwrap_or(0) as usize
}

// Route for a send, with the output that is free: from index at on.
pub fn route_send(
    network: Network,
    marks: &Marks,
    x: Send,
    out: &mut [u8],
    at: usize,
) -> Result<u32, Refusal>
    requires { at ≤ length out.old }
    ensures { RoutesSend (route_call_on network marks.now) x out.old at result out.new }
{
    route_marked(network, marks, x.source, x.destination, &mut out[at..])
}
