// Boxes of maps, four numbers each. The list is 9 where no number is written.
use boxing::box_blocks;
use std::io;
use test_prints::{Answer, At, Faults, node};

// With so many numbers in the list.
fn try_list(
    rt: &impl Print,
    columns: u32,
    rows: u32,
    map: &[u8; 80],
    room: usize,
) -> io::Result<()> {
    print!(rt; "boxes")?;
    for i in 0..80u32 {
        if map[i as usize] == 1 {
            print!(rt; "{}", At(node(i)))?;
        }
    }
    let mut list = [9u32; 25];
    let answer = box_blocks(columns, rows, map, &mut list[..room.min(25)]);
    print!(rt; "{},", Answer(answer.map_err(u32::from)))?;
    for x in &list {
        print!(rt; " {x}")?;
    }
    println!(rt; "")
}

// The map of two faults, and with two more.
fn try_two(rt: &impl Print, p: u32, q: u32, room: usize) -> io::Result<()> {
    try_list(rt, 10, 8, &Faults(p, q).map(), room)
}

fn try_four(rt: &impl Print, p: u32, q: u32, r: u32, s: u32, room: usize) -> io::Result<()> {
    let mut map = Faults(p, q).map();
    map[(r % 80) as usize] = 1;
    map[(s % 80) as usize] = 1;
    try_list(rt, 10, 8, &map, room)
}

// The maps of document 01: A, C, one block of 3 nodes, one of 6, two blocks.
fn try_starred(rt: &impl Print) -> io::Result<()> {
    try_two(rt, 34, 45, 9)?;
    try_two(rt, 33, 36, 8)?;
    try_two(rt, 34, 36, 25)?;
    try_two(rt, 24, 36, 25)?;
    try_two(rt, 24, 44, 25)
}

// No fault; a list that is a number short, and what is refused before that.
fn try_refusals(rt: &impl Print) -> io::Result<()> {
    let map = [0u8; 80];
    try_list(rt, 10, 8, &map, 0)?;
    try_list(rt, 10, 8, &map, 25)?;
    let a = Faults(34, 45).map();
    try_list(rt, 10, 8, &a, 7)?;
    try_list(rt, 65, 8, &a, 7)?;
    try_list(rt, 10, 0, &a, 7)?;
    try_list(rt, 11, 8, &a, 7)?;
    try_two(rt, 34, 48, 7)?;
    let mut other = a;
    other[46] = 2;
    try_list(rt, 10, 8, &other, 7)
}

// Boxes that are close only when others have been merged; two boxes that begin in the same row; three boxes, one of two rows.
pub fn try_boxes(rt: &impl Print) -> io::Result<()> {
    try_starred(rt)?;
    try_four(rt, 12, 42, 34, 26, 25)?;
    try_four(rt, 17, 27, 22, 14, 25)?;
    try_four(rt, 12, 15, 22, 53, 17)?;
    try_refusals(rt)
}
