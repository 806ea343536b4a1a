// "Pick" for programs in C and Rust (c/pinduguil.h).
#![tactic(auto)]

ghost use Rattle.mesh.specs.Mesh.{place};
ghost use Rattle.c_picking.specs.Numbers.{PicksInNumbers};

use buffers::put_first;
use numbers::{place_of, refusal_of};
use picking::route_both;

// The number of letters goes first into what is lent for it, if there is room; where there is no route nothing does.
pub fn pinduguil_pick(
    columns: u32,
    rows: u32,
    map: &[u8],
    source_row: u32,
    source_column: u32,
    row: u32,
    column: u32,
    first: &mut [u8],
    second: &mut [u8],
    letters: &mut [u64],
    refusal: &mut [u64],
) -> u32
    ensures { PicksInNumbers columns rows map.now (place source_row source_column) (place row column) first.old second.old letters.old refusal.old result first.new second.new letters.new refusal.new }
{
    let s = place_of(source_row, source_column);
    let d = place_of(row, column);
    let picked = route_both(columns, rows, map, s, d, first, second);
    if let Ok(pick) = picked {
        put_first(u64::from(pick.hops), letters);
    }
    put_first(u64::from(refusal_of(picked)), refusal);
    picked.map_or(0, |pick| pick.network.into())
}
