// Hand-ins: a route with a letter changed, perhaps cut short.
use crate::draws::draw;

// A letter, seldom another byte.
fn draw_letter(seed: u32) -> u8 {
    match draw(seed, 6, 17) {
        0..=3 => b'E',
        4..=7 => b'N',
        8..=11 => b'S',
        12..=15 => b'W',
        _ => b'X',
    }
}

// A number below n, or 0 if n is 0.
fn draw_index(seed: u32, k: u32, n: usize) -> usize {
    usize::from(draw(seed, k, 255)).checked_rem(n).unwrap_or(0)
}

// How many letters of a route are handed in: mostly all.
pub fn draw_length(seed: u32, hops: usize) -> usize {
    if draw(seed, 8, 10) == 0 {
        draw_index(seed, 9, hops)
    } else {
        hops
    }
}

// Changes a letter of a route.
pub fn change_letter(letters: &mut [u8], seed: u32) {
    let i = draw_index(seed, 7, letters.len());
    if let Some(h) = letters.get_mut(i) {
        *h = draw_letter(seed);
    }
}
