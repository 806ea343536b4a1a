// The rounds of a marking by hand: each bad node has the number of the round that made it so, a fault 0. A round looks only at nodes of earlier
// ones, so it needs no second map and may go over its own in any order. There are 64 places for each row.
use crate::answers::Size;

// Of a node that no round has made bad.
const SAFE: u16 = 65535;

fn index(row: u8, column: u8) -> usize {
    64 * usize::from(row % 64) + usize::from(column % 64)
}

// Whether the place is a bad node of an earlier round.
fn is_older(size: Size, ages: &[u16; 4096], row: u8, column: u8, round: u16) -> bool {
    size.has(row, column) && ages[index(row, column) % 4096] < round
}

// Whether this round makes the place unsafe: bad nodes on both sides of it in its row, or one next to it in its column and one in its row, at
// most two columns away.
fn turns(size: Size, ages: &[u16; 4096], row: u8, column: u8, round: u16) -> bool {
    let is_bad = |rows: u8, columns: u8| {
        is_older(
            size,
            ages,
            row.wrapping_add(rows),
            column.wrapping_add(columns),
            round,
        )
    };
    let east = is_bad(0, 1);
    let west = is_bad(0, 255);
    (east && west)
        || ((is_bad(1, 0) || is_bad(255, 0)) && (east || west || is_bad(0, 2) || is_bad(0, 254)))
}

// Makes a node unsafe if this round does, and says so.
fn make_unsafe(size: Size, ages: &mut [u16; 4096], row: u8, column: u8, round: u16) -> bool {
    let i = index(row, column) % 4096;
    let is_new = ages[i] == SAFE && turns(size, ages, row, column, round);
    if is_new {
        ages[i] = round;
    }
    is_new
}

// One round. Says whether it changes anything.
fn make_round(size: Size, ages: &mut [u16; 4096], round: u16) -> bool {
    let mut any = false;
    for row in 0..size.rows {
        for column in 0..size.columns {
            any |= make_unsafe(size, ages, row, column, round);
        }
    }
    any
}

// The faults are of no round.
fn set_faults(columns: u8, map: &[u8; 4096], ages: &mut [u16; 4096]) {
    if columns == 0 {
        return;
    }
    let n = usize::from(columns);
    for (i, x) in map.iter().enumerate() {
        if *x == 1 {
            ages[index((i / n % 256) as u8, (i % n % 256) as u8) % 4096] = 0;
        }
    }
}

// How many rounds the marking of a map takes, with the last, which changes nothing.
pub fn count_rounds(size: Size, map: &[u8; 4096]) -> u32 {
    let mut ages = [SAFE; 4096];
    set_faults(size.columns, map, &mut ages);
    for round in 1..4098 {
        if !make_round(size, &mut ages, round) {
            return u32::from(round);
        }
    }
    0
}
