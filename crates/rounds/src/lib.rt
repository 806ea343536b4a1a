// The marking of unsafe nodes, in rounds as the definition goes.
#![tactic(auto)]

ghost use Rattle.std.specs.Prelude.{◌≡◌, ◌≤◌, ◌<◌, length};
ghost use Rattle.mesh.specs.Mesh.{mesh};
ghost use Rattle.nodes.specs.Sized.{Sized};
ghost use Rattle.rounds.specs.Rounds.{RowAfter, DueAfter, Copied, RowCopied, OthersSettled, Rounded, Near, Spread, QuietSettled, Settles};

use mesh::{Column, Place, Row};
use nodes::Nodes;

// One row of a round.
fn round_row(nodes: &Nodes, next: &mut [u8], row: Row)
    requires { (row.0 < nodes.now.rows) × (length nodes.now.map ≤ length next.old) }
    ensures { RowAfter nodes.now row.0 nodes.now.columns next.old next.new }
{
    let start = row.0 * nodes.columns;
    for column in 0..nodes.columns {
        next[(start + column) as usize] = nodes.node_after(Place {
            row,
            column: Column(column),
        });
    }
}

// The due rows of a round, from a map to another.
fn round(nodes: &Nodes, due: &[bool], next: &mut [u8])
    requires { (nodes.now.rows ≤ length due.now) × (length nodes.now.map ≤ length next.old) }
    ensures { DueAfter nodes.now due.now nodes.now.rows next.new }
{
    for row in 0..nodes.rows {
        if due[row as usize] {
            round_row(nodes, next, Row(row));
        }
    }
}

// Copies the numbers from start up to end over those of another list, and says whether that changes anything. One loop does both: the library's
// comparison and copy of slices call functions of the C library, which a program for a board may not have.
fn copy_part(from: &[u8], to: &mut [u8], start: usize, end: usize) -> bool
    requires { (start ≤ end) × (end ≤ length from.now) × (end ≤ length to.old) }
    ensures { Copied from.now to.old start end result to.new }
{
    let mut changed = false;
    for i in start..end {
        changed |= from[i] != to[i];
        to[i] = from[i];
    }
    changed
}

// Copies row r if it is due, and says whether that changes anything.
// Here and below columns, rows and out stay apart: a round reads out as `Nodes` and then writes it, which one value can't lend both ways.
fn copy_row(columns: u32, rows: u32, next: &[u8], due: &[bool], out: &mut [u8], r: Row) -> bool
    requires { Sized columns rows out.old × (r.0 < rows) × (rows ≤ length due.now) × (length out.old ≤ length next.now) }
    ensures { RowCopied columns r.0 next.now due.now out.old result out.new }
{
    if !due[r.0 as usize] {
        return false;
    }
    let start = (r.0 * columns) as usize;
    copy_part(next, out, start, start + columns as usize)
}

// Copies the due rows; says of each row and of them all whether that changes anything.
fn copy_round(
    columns: u32,
    rows: u32,
    next: &[u8],
    due: &[bool],
    changed: &mut [bool],
    out: &mut [u8],
) -> bool
    requires { Sized columns rows out.old × (rows ≤ length changed.old) × (rows ≤ length due.now) × (length out.old ≤ length next.now) × DueAfter (mesh columns rows out.old) due.now rows next.now × OthersSettled (mesh columns rows out.old) due.now }
    ensures { Rounded (mesh columns rows out.old) result changed.new out.new }
{
    let mut any = false;
    for row in 0..rows {
        let row_changed = copy_row(columns, rows, next, due, out, Row(row));
        changed[row as usize] = row_changed;
        any |= row_changed;
    }
    any
}

// Whether row r or a row beside it changed.
fn near(rows: u32, changed: &[bool], r: Row) -> bool
    requires { (rows ≤ 64) × (rows ≤ length changed.now) × (r.0 < rows) }
    ensures { Near rows changed.now r.0 result }
{
    let at = r.0 as usize;
    changed[at] || (0 < at && changed[at - 1]) || (r.0 + 1 < rows && changed[at + 1])
}

// Finds the rows that are due in the next round: no other can change.
fn spread(rows: u32, changed: &[bool], due: &mut [bool])
    requires { (rows ≤ 64) × (rows ≤ length changed.now) × (rows ≤ length due.old) }
    ensures { Spread rows changed.now rows due.new }
{
    for row in 0..rows {
        due[row as usize] = near(rows, changed, Row(row));
    }
}

// One round in place, by way of next: only the rows near one that changed in the last round are looked at.
// Says of each row and of them all whether it changes anything.
fn round_in_place(
    columns: u32,
    rows: u32,
    out: &mut [u8],
    next: &mut [u8],
    changed: &mut [bool],
) -> bool
    requires { Sized columns rows out.old × (length out.old ≤ length next.old) × (rows ≤ length changed.old) × QuietSettled (mesh columns rows out.old) changed.old }
    ensures { Rounded (mesh columns rows out.old) result changed.new out.new }
{
    let mut due = [false; 64];
    spread(rows, changed, &mut due);
    round(
        &Nodes {
            columns,
            rows,
            map: out,
        },
        &due,
        next,
    );
    copy_round(columns, rows, next, &due, changed, out)
}

// The marking of a fault map, in its place: rounds until nothing changes, and how many these were.
pub fn settle(columns: u32, rows: u32, out: &mut [u8]) -> u32
    requires { Sized columns rows out.old }
    ensures { Settles (mesh columns rows out.old) result out.new }
{
    let mut next = [0u8; 4096];
    let mut changed = [true; 64];
    let mut made: u32 = 1;
    while round_in_place(columns, rows, out, &mut next, &mut changed) {
        made += 1;
    }
    made
}

// The marking of a fault map, in another, and how many rounds that took.
pub fn mark(nodes: &Nodes, out: &mut [u8]) -> u32
    requires { length out.old ≡ length nodes.now.map }
    ensures { Settles nodes.now result out.new }
{
    copy_part(nodes.map, out, 0, nodes.map.len());
    settle(nodes.columns, nodes.rows, out)
}
