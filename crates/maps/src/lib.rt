// Fault maps: refusals 1 to 5, which every operation tests first.
#![tactic(auto)]

ghost use Rattle.std.specs.Prelude.{◌≡◌, ◌*◌, ◌/◌, ◌%◌, ◌≤◌, ◌<◌, get_or, IfOk};
ghost use Rattle.mesh.specs.Mesh.{mesh};
ghost use Rattle.mesh.specs.Tests.{first};
ghost use Rattle.mesh.specs.Numbers.{checked_number};
ghost use Rattle.nodes.specs.Sized.{OnMesh};
ghost use Rattle.mesh.specs.Maps.{bad_size, bad_length, bad_byte, allowed, misplaced_at, misplaced, map_tests};

use mesh::{Column, Place, Refusal, Row};
use nodes::Nodes;

// Refusals 1 and 2.
#[tactic(auto, unfolding(mesh::specs::Maps::bad_size))]
pub fn is_bad_size(n: u32) -> bool
    ensures { result ≡ bad_size n }
{
    n == 0 || 64 < n
}

// Refusal 3.
#[tactic(auto, unfolding(mesh::specs::Maps::bad_length))]
fn is_bad_length(columns: u32, rows: u32, map: &[u8]) -> bool
    requires { (columns ≤ 64) × (rows ≤ 64) }
    ensures { result ≡ bad_length columns rows map.now }
{
    map.len() != (columns * rows) as usize
}

// Refusal 4.
fn has_bad_byte(map: &[u8]) -> bool
    ensures { result ≡ bad_byte map.now }
{
    map.iter().any(|x| 1 < *x)
}

// Whether a fault may lie at this place of the mesh.
#[tactic(auto, unfolding(mesh::specs::Maps::allowed))]
fn is_allowed(nodes: &Nodes, p: Place) -> bool
    requires { OnMesh nodes.now p }
    ensures { result ≡ allowed nodes.now.columns nodes.now.rows p.row.0 p.column.0 }
{
    let Place {
        row: Row(row),
        column: Column(column),
    } = p;
    (1 <= row && row + 1 < nodes.rows) && (2 <= column && column + 2 < nodes.columns)
}

// Whether the node at index i is a fault where none is allowed.
fn is_misplaced(nodes: &Nodes, i: u32) -> bool
    requires { i < nodes.now.columns * nodes.now.rows }
    ensures { result ≡ misplaced_at nodes.now.columns nodes.now.rows i (get_or nodes.now.map i 0) }
{
    if nodes.map[i as usize] == 0 {
        return false;
    }
    let p = Place {
        row: Row(i / nodes.columns),
        column: Column(i % nodes.columns),
    };
    !is_allowed(nodes, p)
}

// Refusal 5.
pub fn has_misplaced(nodes: &Nodes) -> bool
    ensures { result ≡ misplaced nodes.now.columns nodes.now.rows nodes.now.map }
{
    for i in 0..nodes.columns * nodes.rows {
        if is_misplaced(nodes, i) {
            return true;
        }
    }
    false
}

// Refusals 1 to 5, in this order; where none applies, the nodes of the map.
// The operations take columns, rows and map apart, as C and every caller has them, unchecked: from here on they are one value.
#[tactic(auto, unfolding(mesh::specs::Maps::map_tests, mesh::specs::Tests::first))]
pub fn check_map<'a>(columns: u32, rows: u32, map: &'a [u8]) -> Result<Nodes<'a>, Refusal>
    ensures refusals { checked_number result ≡ first (map_tests columns rows map.now) }
    ensures nodes { IfOk result (λ n. n ≡ mesh columns rows map.now) }
{
    if is_bad_size(columns) {
        return Err(Refusal::Columns);
    }
    if is_bad_size(rows) {
        return Err(Refusal::Rows);
    }
    if is_bad_length(columns, rows, map) {
        return Err(Refusal::MapLength);
    }
    if has_bad_byte(map) {
        return Err(Refusal::MapByte);
    }
    let nodes = Nodes { columns, rows, map };
    if has_misplaced(&nodes) {
        return Err(Refusal::FaultPlace);
    }
    Ok(nodes)
}
