// Whole tables of sends. The output has dots where no letter is written, and an entry without an answer is 0.
use batch::route_batch;
use mesh::Network;
use std::io;
use test_prints::{Answer, Faults, Letters};

// An entry of a table: a number of hops, or 65,536 plus the number of a refusal.
fn entry(x: u32) -> Answer {
    Answer(match x.checked_sub(65536) {
        Some(why) => Err(why),
        None => Ok(x),
    })
}

// On a map with this fault and (4,5).
fn try_sends(
    rt: &impl Print,
    network: Network,
    p: u32,
    sends: &[u32],
    answers: &mut [u32],
    out: &mut [u8],
) -> io::Result<()> {
    let map = Faults(p, 45).map();
    match route_batch(network, 10, 8, &map, sends, answers, out) {
        Ok(n) => print!(rt; "table of sends: {n}")?,
        Err(why) => print!(rt; "table of sends: no {}", u32::from(why))?,
    }
    for x in &*answers {
        print!(rt; "{}", entry(*x))?;
    }
    println!(rt; " {}", Letters(out))
}

// Sends of 11 hops, of 13, to a block's side, of 2.
fn try_table(
    rt: &impl Print,
    network: Network,
    p: u32,
    answers: &mut [u32],
    out: &mut [u8],
) -> io::Result<()> {
    let sends = [1u32, 5, 6, 5, 3, 0, 3, 9, 1, 1, 4, 6, 1, 1, 1, 3];
    try_sends(rt, network, p, &sends, answers, out)
}

// To the row above a block, to its west and east sides, to the row below it.
fn try_near(rt: &impl Print) -> io::Result<()> {
    let mut answers = [0u32; 4];
    let mut out = [b'.'; 30];
    let sends = [1u32, 5, 5, 4, 1, 5, 3, 3, 1, 5, 4, 7, 6, 4, 2, 5];
    try_sends(rt, Network::First, 34, &sends, &mut answers, &mut out)
}

fn try_30(rt: &impl Print, p: u32) -> io::Result<()> {
    let mut answers = [0u32; 5];
    let mut out = [b'.'; 30];
    try_table(rt, Network::First, p, &mut answers, &mut out)
}

// The second has no room, and the last has.
fn try_23(rt: &impl Print) -> io::Result<()> {
    let mut answers = [0u32; 5];
    let mut out = [b'.'; 23];
    try_table(rt, Network::First, 34, &mut answers, &mut out)
}

// Nor has the last.
fn try_12(rt: &impl Print) -> io::Result<()> {
    let mut answers = [0u32; 4];
    let mut out = [b'.'; 12];
    try_table(rt, Network::First, 34, &mut answers, &mut out)
}

// The same on the second network, with room for the first two.
fn try_second(rt: &impl Print) -> io::Result<()> {
    let mut answers = [0u32; 4];
    let mut out = [b'.'; 22];
    print!(rt; "second network, ")?;
    try_table(rt, Network::Second, 34, &mut answers, &mut out)
}

// Too few entries.
fn try_short(rt: &impl Print, p: u32) -> io::Result<()> {
    let mut answers = [0u32; 3];
    let mut out = [b'.'; 30];
    try_table(rt, Network::First, p, &mut answers, &mut out)
}

// With room for all and less; too few entries; and these with a fault where none is allowed; near a block; on the second network.
pub fn try_tables(rt: &impl Print) -> io::Result<()> {
    try_30(rt, 34)?;
    try_23(rt)?;
    try_12(rt)?;
    try_short(rt, 34)?;
    try_30(rt, 4)?;
    try_short(rt, 4)?;
    try_near(rt)?;
    try_second(rt)
}
