// The bench cases of document 01, starred ones included, and some more on rounds, boxes, moving on, judging, destinations near a block, the second
// network and four hand-ins that would wait in a ring.
// Prints each request with its answer; the file stdout has the answers of the paper. Meshes have 10 columns and 8 rows, and a place is one number,
// as 34 for (3,4).
#![tactic(auto)]

mod boxing_cases;
mod judging_cases;
mod marking_cases;
mod moving_cases;
mod routing_cases;

use std::io;

fn main(rt: HostRuntime) -> io::Result<()> {
    marking_cases::try_blocks(&rt)?;
    marking_cases::try_faults(&rt)?;
    marking_cases::try_sizes(&rt)?;
    marking_cases::try_rounds(&rt)?;
    boxing_cases::try_boxes(&rt)?;
    routing_cases::try_routes(&rt)?;
    judging_cases::try_hand_ins(&rt)?;
    moving_cases::try_packets(&rt)?;
    routing_cases::try_second_network(&rt)?;
    judging_cases::try_second_network(&rt)?;
    moving_cases::try_second_network(&rt)?;
    judging_cases::try_ring(&rt)
}
