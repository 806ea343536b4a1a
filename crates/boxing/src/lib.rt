// Blocks from rectangles (document 02, E10): boxes round the faults, merged where they are close.
#![tactic(auto)]

ghost use Rattle.std.specs.Prelude.{◌*◌, ◌<◌, length};
ghost use Rattle.theory_boxes.specs.Boxing.{ListsBoxes};
ghost use Rattle.boxing.specs.Steps.{OnRow, Ready, Advances, LooksAt, MergesRow};

use box_lists::{merge, sort};
use boxes::Corners;
use faults::{count_faults, group_end};
use maps::check_map;
use mesh::{Column, Refusal, Row};
use nodes::Nodes;

// How many boxes there are, and the index of the map from which on faults are still to be merged.
#[derive(Clone, Copy)]
pub struct Step {
    pub boxes: usize,
    pub next: usize,
}

// Looks at index i of the map, in row r: if there is a fault, the box round it and those after it that are close is merged with the n boxes of the
// list.
fn merge_node(nodes: &Nodes, list: &mut [u32], r: Row, i: usize, n: usize) -> Step
    requires { OnRow nodes.now r.0 i × Ready nodes.now r.0 list.old i n }
    ensures { LooksAt nodes.now r.0 list.old i n result list.new }
{
    if nodes.map[i] == 0 {
        return Step {
            boxes: n,
            next: i + 1,
        };
    }
    let start = (r.0 * nodes.columns) as usize;
    let last = group_end(nodes.map, i, start + nodes.columns as usize);
    let west = Column((i - start) as u32);
    let east = Column((last - start) as u32);
    Step {
        boxes: merge(list, n, Corners::row_box(r, west, east)),
        next: last + 1,
    }
}

// Merges the faults of a row with the n boxes of the list, and answers how many there are then.
fn merge_row(nodes: &Nodes, list: &mut [u32], r: Row, n: usize) -> usize
    requires { (r.0 < nodes.now.rows) × Ready nodes.now r.0 list.old (r.0 * nodes.now.columns) n }
    ensures { MergesRow nodes.now r.0 list.old n result list.new }
{
    let start = (r.0 * nodes.columns) as usize;
    let end = start + nodes.columns as usize;
    let mut step = Step {
        boxes: n,
        next: start,
    };
    // No `for`: a step may go past several nodes.
    while step.next < end {
        step = merge_node(nodes, list, r, step.next, step.boxes);
    }
    step.boxes
}

// Merges all faults, row by row, and answers how many boxes are left.
fn merge_faults(nodes: &Nodes, list: &mut [u32]) -> usize
    requires { Ready nodes.now 0 list.old 0 0 }
    ensures { Advances nodes.now nodes.now.rows list.old 0 0 (length nodes.now.map) result list.new }
{
    let mut n = 0;
    for r in 0..nodes.rows {
        n = merge_row(nodes, list, Row(r), n);
    }
    n
}

// Writes the boxes, four numbers each, by lowest row, then lowest column, and zeros up to four numbers for each fault. Answers how many boxes
// there are.
pub fn box_blocks(columns: u32, rows: u32, map: &[u8], list: &mut [u32]) -> Result<u32, Refusal>
    ensures { ListsBoxes columns rows map.now list.old result list.new }
{
    let nodes = check_map(columns, rows, map)?;
    let faults = count_faults(map) as usize;
    if list.len() < 4 * faults {
        return Err(Refusal::Room);
    }
    let n = merge_faults(&nodes, list);
    sort(list, n);
    list[4 * n..4 * faults].fill(0);
    Ok(n as u32)
}
