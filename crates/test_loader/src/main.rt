// What a board loader asks for: the worked tables of sends, the worked picks and the worked files of legs; and the worked draws of maps. Prints each
// request with its answer; the file stdout has the answers of the paper. Meshes have 10 columns and 8 rows, but for those that are drawn.
#![tactic(auto)]

mod batch_cases;
mod draw_cases;
mod leg_cases;
mod pick_cases;

use std::io;

fn main(rt: HostRuntime) -> io::Result<()> {
    batch_cases::try_tables(&rt)?;
    pick_cases::try_picks(&rt)?;
    leg_cases::try_legs(&rt)?;
    draw_cases::try_draws(&rt)
}
