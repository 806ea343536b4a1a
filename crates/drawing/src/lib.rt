// Drawing a map by number (document 02, E8).
#![tactic(auto)]

ghost use Rattle.std.specs.Prelude.{◌≡◌, ◌<◌, length};
ghost use Rattle.theory_draw.specs.Draws.{index_of};
ghost use Rattle.theory_draw.specs.Drawing.{bad_draws, DrawsMap};
ghost use Rattle.drawing.specs.Steps.{Ready, SetsFault, Fills};

use draws::{next_state, pick_place};
use maps::is_bad_size;
use mesh::{Place, Refusal};
use theory_draw::DrawRefusal;

// Refusal 24.
#[tactic(auto, using(crate::proofs::BadDraws::bad_draws_tested))]
fn is_bad_draws(columns: u32, rows: u32, draws: u32) -> bool
    ensures { result ≡ bad_draws columns rows draws }
{
    match draws {
        0 => false,
        1..=1000 => columns < 5 || rows < 3,
        _ => true,
    }
}

// Sets a fault, and answers how many that adds: none if the node was faulty, else one.
#[tactic(auto, unfolding(theory_draw::specs::Draws::index_of))]
fn set_fault(columns: u32, map: &mut [u8], p: Place) -> u32
    requires { (index_of columns p < length map.old) × (index_of columns p < 4096) }
    ensures { SetsFault columns p map.old result map.new }
{
    let at = (p.row.0 * columns + p.column.0) as usize;
    let was = std::mem::replace(&mut map[at], 1);
    u32::from(was != 1)
}

// Draws the map of a mesh, and answers its number of distinct faults.
fn draw_map(columns: u32, rows: u32, seed: u32, draws: u32, map: &mut [u8]) -> u32
    requires { Ready columns rows draws map.old }
    ensures { Fills columns rows seed draws result map.new }
{
    map.fill(0);
    let mut state = seed;
    let mut faults = 0;
    for _ in 0..draws {
        state = next_state(state);
        faults += set_fault(columns, map, pick_place(columns, rows, state));
    }
    faults
}

// Draws a map from a seed into the first columns x rows bytes of the output, and answers its number of distinct faults.
#[tactic(auto, unfolding(theory_draw::specs::Drawing::draw_refusal, mesh::specs::Tests::first, mesh::specs::Numbers::answer, mesh::specs::Numbers::written))]
pub fn draw(
    columns: u32,
    rows: u32,
    seed: u32,
    draws: u32,
    out: &mut [u8],
) -> Result<u32, DrawRefusal>
    ensures { DrawsMap columns rows seed draws out.old result out.new }
{
    if is_bad_size(columns) {
        return Err(Refusal::Columns.into());
    }
    if is_bad_size(rows) {
        return Err(Refusal::Rows.into());
    }
    if is_bad_draws(columns, rows, draws) {
        return Err(DrawRefusal::BadDraws);
    }
    let n = (columns * rows) as usize;
    // By a test: once what `get_mut` lends is given back, no element of the slice is known.
    if out.len() < n {
        return Err(Refusal::Room.into());
    }
    Ok(draw_map(columns, rows, seed, draws, &mut out[..n]))
}
