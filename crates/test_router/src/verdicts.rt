// What judging is to say of a hand-in, on a mesh whose map is not refused and between places that are outside blocks.
use crate::answers::Size;
use crate::areas::Area;
use crate::trips::{Trip, is_reversal};

// The number of what is wrong, and the index of the wrong letter, or the length.
#[derive(Clone, Copy, PartialEq, Eq)]
pub struct Wrong {
    pub number: u32,
    pub index: usize,
}

// What is wrong with a letter, by its number.
fn judge_letter(size: Size, boxes: &[Area], t: Trip, last: Option<u8>, h: u8) -> Result<(), u32> {
    if !matches!(h, b'E' | b'N' | b'S' | b'W') {
        return Err(11);
    }
    let next = t.after(h);
    if !size.has(next.row, next.column) {
        return Err(12);
    }
    if is_reversal(last, h) {
        return Err(13);
    }
    match t.broken_rule(last, h) {
        Some(1) => Err(14),
        Some(_) => Err(17),
        None if next.is_shut(boxes) => Err(15),
        None => Ok(()),
    }
}

// The letters in turn: their number if they pass.
pub fn judge_letters(
    size: Size,
    boxes: &[Area],
    trip: Trip,
    letters: &[u8],
) -> Result<usize, Wrong> {
    let mut t = trip;
    let mut last = None;
    for (index, h) in letters.iter().enumerate() {
        judge_letter(size, boxes, t, last, *h).map_err(|number| Wrong { number, index })?;
        t = t.after(*h);
        last = Some(*h);
    }
    let index = letters.len();
    if t.is_over() {
        Ok(index)
    } else {
        Err(Wrong { number: 16, index })
    }
}
