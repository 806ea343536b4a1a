// Mark blocks.
use marking::mark_blocks;
use mesh::{Marked, Refusal};
use std::io;
use test_prints::Faults;

// The number of blocks and that of rounds, or the refusal.
fn print_marked(rt: &impl Print, answer: Result<Marked, Refusal>) -> io::Result<()> {
    match answer {
        Ok(marked) => println!(rt; ": {}, rounds {}", marked.blocks, marked.rounds),
        Err(why) => println!(rt; ": no {}", u32::from(why)),
    }
}

// The marks, row 0 first.
fn print_marks(rt: &impl Print, marks: &[u8; 80]) -> io::Result<()> {
    for row in marks.chunks(10) {
        for x in row {
            let mark = match x {
                0 => '.',
                1 => 'F',
                2 => 'U',
                _ => '?',
            };
            print!(rt; "{mark}")?;
        }
        println!(rt; "")?;
    }
    Ok(())
}

// Marks a map; the marks are printed on demand.
fn try_map(rt: &impl Print, map: &[u8], with_marks: bool) -> io::Result<()> {
    let mut out = [7u8; 80];
    print_marked(rt, mark_blocks(10, 8, map, &mut out))?;
    if with_marks {
        print_marks(rt, &out)?;
    }
    Ok(())
}

// A map with these faults.
fn try_marks(rt: &impl Print, p: u32, q: u32, with_marks: bool) -> io::Result<()> {
    let faults = Faults(p, q);
    print!(rt; "blocks round{faults}")?;
    try_map(rt, &faults.map(), with_marks)
}

// Marks a map of this size without faults.
fn try_size(rt: &impl Print, columns: u32, rows: u32, nodes: usize) -> io::Result<()> {
    let map = [0u8; 4096];
    let mut out = [7u8; 4096];
    print!(rt; "{columns} columns, {rows} rows")?;
    let answer = mark_blocks(columns, rows, &map[..nodes.min(4096)], &mut out);
    print_marked(rt, answer)
}

// Map L: a column of faults, and one beside its south end. Each round but the last makes one node unsafe.
pub fn try_rounds(rt: &impl Print) -> io::Result<()> {
    let mut map = [0u8; 80];
    map[13] = 1;
    for row in 1..7 {
        map[10 * row + 2] = 1;
    }
    print!(rt; "blocks round rows 1 to 6 of column 2 and (1,3)")?;
    try_map(rt, &map, true)
}

pub fn try_blocks(rt: &impl Print) -> io::Result<()> {
    try_marks(rt, 34, 45, true)?;
    try_marks(rt, 33, 36, true)?;
    try_marks(rt, 34, 36, true)?;
    try_marks(rt, 24, 36, true)?;
    try_marks(rt, 24, 44, true)
}

pub fn try_faults(rt: &impl Print) -> io::Result<()> {
    for p in [31, 38, 4, 74, 32, 37, 14, 64] {
        try_marks(rt, p, p, false)?;
    }
    Ok(())
}

pub fn try_sizes(rt: &impl Print) -> io::Result<()> {
    try_size(rt, 64, 64, 4096)?;
    try_size(rt, 64, 1, 64)?;
    try_size(rt, 1, 64, 64)?;
    try_size(rt, 0, 8, 0)?;
    try_size(rt, 65, 8, 520)?;
    try_size(rt, 10, 0, 0)?;
    try_size(rt, 10, 65, 650)
}
