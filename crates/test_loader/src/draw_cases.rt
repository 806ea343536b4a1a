// Maps drawn by number. The output is 9 where no byte is written; of its 81 bytes one lies beyond the map of 10 x 8.
use drawing::draw;
use std::io;
use test_prints::{Answer, Bytes};

// With so many bytes in the output.
fn try_draw(
    rt: &impl Print,
    columns: u32,
    rows: u32,
    seed: u32,
    draws: u32,
    room: usize,
) -> io::Result<()> {
    let mut out = [9u8; 81];
    let answer = draw(columns, rows, seed, draws, &mut out[..room.min(81)]);
    let answer = Answer(answer.map_err(u32::from));
    print!(rt; "draw {columns} x {rows}, number {seed}, draws {draws}{answer}")?;
    println!(rt; ",{}", Bytes(&out))
}

// The first three draws of a seed, and of the last one; places that come again, the only one too; no draws, with places and without.
fn try_maps(rt: &impl Print) -> io::Result<()> {
    try_draw(rt, 10, 8, 0, 3, 81)?;
    try_draw(rt, 10, 8, 4294967295, 3, 81)?;
    try_draw(rt, 10, 8, 2026, 6, 80)?;
    try_draw(rt, 7, 5, 9, 8, 81)?;
    try_draw(rt, 5, 3, 7, 2, 81)?;
    try_draw(rt, 5, 3, 7, 1000, 15)?;
    try_draw(rt, 10, 8, 7, 0, 81)?;
    try_draw(rt, 1, 1, 7, 0, 1)
}

pub fn try_draws(rt: &impl Print) -> io::Result<()> {
    try_maps(rt)?;
    try_draw(rt, 5, 3, 7, 1001, 15)?;
    try_draw(rt, 4, 8, 7, 1, 81)?;
    try_draw(rt, 8, 2, 7, 1, 81)?;
    try_draw(rt, 4, 2, 7, 1, 0)?;
    try_draw(rt, 5, 3, 7, 1, 14)?;
    try_draw(rt, 1, 1, 7, 0, 0)?;
    try_draw(rt, 65, 65, 7, 1001, 0)?;
    try_draw(rt, 0, 65, 7, 1001, 0)?;
    try_draw(rt, 64, 65, 7, 1001, 0)?;
    try_draw(rt, 64, 0, 7, 1001, 0)?;
    try_draw(rt, 64, 64, 7, 1001, 0)
}
