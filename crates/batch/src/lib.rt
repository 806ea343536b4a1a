// The operation "A whole table of sends": routes on one map, which is checked and marked once.
#![tactic(auto)]

ghost use Rattle.std.specs.Prelude.{◌≡◌, false, ◌≤◌, length};
ghost use Rattle.theory_batch.specs.Sends.{sends_of, uneven};
ghost use Rattle.theory_batch.specs.Batch.{RoutesBatch};
ghost use Rattle.sends.specs.Sends.{route_call_on};
ghost use Rattle.batch.specs.Marked.{RoutesSends};

use blocks::Marks;
use marking::mark_in;
use mesh::Network;
use numbers::answer_code;
use sends::{is_uneven, route_send, send_at, wrote};
use theory_batch::BatchRefusal;

// All sends in turn on a marking already made, and the number of their letters.
fn route_sends(
    network: Network,
    marks: &Marks,
    sends: &[u32],
    answers: &mut [u32],
    out: &mut [u8],
) -> usize
    requires { (uneven sends.now ≡ false) × (length (sends_of sends.now) ≤ length answers.old) }
    ensures { RoutesSends (route_call_on network marks.now) sends.now answers.old out.old result answers.new out.new }
{
    let mut at = 0;
    for i in 0..sends.len() / 4 {
        let r = route_send(network, marks, send_at(sends, i), out, at);
        answers[i] = answer_code(r);
        at += wrote(r);
    }
    at
}

// A whole table of sends: writes an answer for each send and the letters of the served ones, and answers the number of letters.
pub fn route_batch(
    network: Network,
    columns: u32,
    rows: u32,
    map: &[u8],
    sends: &[u32],
    answers: &mut [u32],
    out: &mut [u8],
) -> Result<usize, BatchRefusal>
    ensures { RoutesBatch network columns rows map.now sends.now answers.old out.old result answers.new out.new }
{
    let mut marks = [0; 4096];
    let marks = mark_in(columns, rows, map, &mut marks)?;
    if is_uneven(sends) || answers.len() < sends.len() / 4 {
        return Err(BatchRefusal::NotSends);
    }
    Ok(route_sends(network, &marks, sends, answers, out))
}
