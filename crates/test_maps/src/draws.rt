// Random maps and requests, the same ones in each run: a number is drawn by a seed and by its place among those of the seed.
use test_router::answers::Size;
use test_router::trips::Trip;

// A mesh in which one of so many stretches of nodes is faulty: stretches of this length in columns, and again in rows.
#[derive(Clone, Copy)]
pub struct Shape {
    pub size: Size,
    pub stretch: u8,
    pub one_in: u8,
}

fn mix(x: u32) -> u32 {
    let y = x.wrapping_mul(2246822519).wrapping_add(1013904223);
    y ^ (y >> 15)
}

// Number k of a seed, below n; 0 if n is 0.
pub fn draw(seed: u32, k: u32, n: u8) -> u8 {
    let x = mix(mix(mix(seed).wrapping_add(k)));
    (x >> 16).checked_rem(u32::from(n)).unwrap_or(0) as u8
}

// Number k of a seed: one of n from `low` up.
fn draw_from(seed: u32, k: u32, low: u8, n: u8) -> u8 {
    low.wrapping_add(draw(seed, k, n))
}

// A row or column number on a mesh of this size, seldom off it.
fn draw_number(seed: u32, k: u32, size: u8) -> u8 {
    if draw(seed, k, 100) == 0 {
        size
    } else {
        draw(seed, k, size)
    }
}

pub fn draw_trip(seed: u32, size: Size) -> Trip {
    Trip {
        network: draw_from(seed, 10, 1, 2),
        row: draw_number(seed, 0, size.rows),
        column: draw_number(seed, 1, size.columns),
        to_row: draw_number(seed, 2, size.rows),
        to_column: draw_number(seed, 3, size.columns),
    }
}

fn is_allowed(size: Size, row: u32, column: u32) -> bool {
    let rows = u32::from(size.rows);
    let columns = u32::from(size.columns);
    0 < row && row < rows.saturating_sub(1) && 1 < column && column < columns.saturating_sub(2)
}

impl Shape {
    // A small mesh, from one node on.
    pub fn small(seed: u32) -> Shape {
        Shape {
            size: Size {
                columns: draw_from(seed, 10000, 1, 18),
                rows: draw_from(seed, 10001, 1, 14),
            },
            stretch: draw_from(seed, 10002, 1, 5),
            one_in: draw_from(seed, 10003, 3, 50),
        }
    }

    // Whether the stretch of a node along a column, or a row, is faulty: numbers along that and across it.
    fn is_hit(self, seed: u32, along: u32, across: u32) -> bool {
        match along.checked_div(u32::from(self.stretch)) {
            Some(k) => draw(seed, (k % 64 * 64).wrapping_add(across), self.one_in) == 0,
            None => false,
        }
    }

    // Whether node i is faulty.
    fn is_fault(self, seed: u32, i: u32) -> bool {
        let n = u32::from(self.size.columns);
        if n == 0 {
            return false;
        }
        let row = i / n;
        let column = i % n;
        is_allowed(self.size, row, column)
            && (self.is_hit(seed, row, column) || self.is_hit(seed.wrapping_add(31), column, row))
    }

    // Draws the faults of a map.
    pub fn draw_faults(self, map: &mut [u8; 4096], seed: u32) {
        for i in 0..4096u32 {
            map[i as usize] = u8::from(self.is_fault(seed, i));
        }
    }
}
