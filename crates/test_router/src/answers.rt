// What routing is to answer on a mesh whose map is not refused, and the bound on its hops.
use crate::areas::{Area, is_within};
use crate::trips::Trip;

#[derive(Clone, Copy)]
pub struct Size {
    pub columns: u8,
    pub rows: u8,
}

impl Size {
    pub fn has(self, row: u8, column: u8) -> bool {
        row < self.rows && column < self.columns
    }
}

// Refusals 6 to 8, by their numbers. A place in no box has a node of one near in its row if it is in the box grown by two columns each way.
fn check(size: Size, boxes: &[Area], t: Trip) -> Result<(), u32> {
    if !size.has(t.row, t.column) || !size.has(t.to_row, t.to_column) {
        return Err(6);
    }
    if is_within(boxes, t.row, t.column, 0, 0) || is_within(boxes, t.to_row, t.to_column, 0, 0) {
        return Err(7);
    }
    if is_within(boxes, t.to_row, t.to_column, 0, 2) {
        return Err(8);
    }
    Ok(())
}

// The number of hops, or the refusal's, 0 if there is no end to the hops. Walks the hops by the rules and writes their letters, also if there is
// no room for them.
pub fn answer_route(
    size: Size,
    boxes: &[Area],
    trip: Trip,
    room: usize,
    letters: &mut [u8; 4096],
) -> Result<u32, u32> {
    check(size, boxes, trip)?;
    let mut t = trip;
    let mut last = None;
    for hops in 0..4096u32 {
        if t.is_over() {
            return if room < hops as usize {
                Err(10)
            } else {
                Ok(hops)
            };
        }
        let h = t.next_hop(boxes, last);
        if t.is_forbidden(last, h) {
            return Err(9);
        }
        t = t.after(h);
        if !size.has(t.row, t.column) || t.is_shut(boxes) {
            return Err(9);
        }
        letters[hops as usize] = h;
        last = Some(h);
    }
    Err(0)
}

// Twice (width + height + 1).
fn detour(a: Area) -> u32 {
    2 * (u32::from(a.west.abs_diff(a.east)) + u32::from(a.south.abs_diff(a.north)) + 3)
}

// The bound of demand 3: the distances, 2, and the detour of each box.
pub fn bound(boxes: &[Area], t: Trip) -> u32 {
    let hops = u32::from(t.row.abs_diff(t.to_row)) + u32::from(t.column.abs_diff(t.to_column)) + 2;
    boxes
        .iter()
        .fold(hops, |sum, a| sum.wrapping_add(detour(*a)))
}
