// The marking of a fault map, and the operation "Mark blocks".
#![tactic(auto)]

ghost use Rattle.std.specs.Prelude.{◌≡◌, ◌≤◌, length, IfOk};
ghost use Rattle.mesh.specs.Mesh.{mesh};
ghost use Rattle.mesh.specs.Tests.{first};
ghost use Rattle.mesh.specs.Numbers.{checked_number};
ghost use Rattle.mesh.specs.Rounds.{marked};
ghost use Rattle.mesh.specs.Maps.{map_tests};
ghost use Rattle.mesh.specs.Marking.{MarksBlocks};
ghost use Rattle.marking.specs.Marks.{MarksMap};

use blocks::{Marks, count_blocks};
use maps::check_map;
use mesh::{Marked, Refusal};
use nodes::Nodes;
use rounds::mark;

// Refusals 1 to 5; if none applies, the marking stands in the first places of marks.
pub fn mark_map(columns: u32, rows: u32, map: &[u8], marks: &mut [u8]) -> Result<(), Refusal>
    requires { 4096 ≤ length marks.old }
    ensures { MarksMap columns rows map.now result marks.new }
{
    let faults = check_map(columns, rows, map)?;
    mark(&faults, &mut marks[..map.len()]);
    Ok(())
}

// The same, and the marking as a value, which borrows marks.
pub fn mark_in<'a>(
    columns: u32,
    rows: u32,
    map: &[u8],
    marks: &'a mut [u8],
) -> Result<Marks<'a>, Refusal>
    requires { 4096 ≤ length marks.old }
    ensures refusals { checked_number result ≡ first (map_tests columns rows map.now) }
    ensures marks { IfOk result (λ m. m ≡ marked (mesh columns rows map.now)) }
{
    mark_map(columns, rows, map, marks)?;
    Ok(Marks {
        nodes: Nodes {
            columns,
            rows,
            map: &marks[..map.len()],
        },
    })
}

// Mark blocks: writes 0 safe, 1 faulty, 2 unsafe for each node, and answers the number of blocks and that of rounds.
pub fn mark_blocks(columns: u32, rows: u32, map: &[u8], out: &mut [u8]) -> Result<Marked, Refusal>
    ensures { MarksBlocks columns rows map.now out.old result out.new }
{
    let nodes = check_map(columns, rows, map)?;
    // A test, since `get_mut(..n)` would say nothing of what stays in `out` where it gives None.
    if out.len() < map.len() {
        return Err(Refusal::Room);
    }
    let out = &mut out[..map.len()];
    let rounds = mark(&nodes, out);
    let marks = Nodes {
        columns,
        rows,
        map: out,
    };
    Ok(Marked {
        blocks: count_blocks(&marks),
        rounds,
    })
}
