// Draws by number (document 02, E8): the next state, and the place that it picks.
#![tactic(auto)]

ghost use Rattle.std.specs.Prelude.{◌≡◌, ◌≤◌};
ghost use Rattle.theory_draw.specs.Draws.{next_state, picked, picked_place};

use mesh::{Column, Place, Row};

// A draw's new state.
pub fn next_state(state: u32) -> u32
    ensures { result ≡ next_state state }
{
    1664525u32.wrapping_mul(state).wrapping_add(1013904223)
}

// The number that a state picks of n.
fn pick(n: u32, state: u32) -> u32
    ensures { result ≡ picked n state }
{
    (u64::from(state) * u64::from(n) / 4294967296) as u32
}

// The allowed place that a state picks: there are rows - 2 rows of columns - 4 places.
pub fn pick_place(columns: u32, rows: u32, state: u32) -> Place
    requires { (5 ≤ columns) × (columns ≤ 64) × (3 ≤ rows) × (rows ≤ 64) }
    ensures { result ≡ picked_place columns rows state }
{
    let wide = columns - 4;
    let high = rows - 2;
    // There are at most 3,720: they are divided in 16 bits, which is faster.
    let k = pick(high * wide, state) as u16;
    let wide = wide as u16;
    Place {
        row: Row(u32::from(k / wide) + 1),
        column: Column(u32::from(k % wide) + 2),
    }
}
