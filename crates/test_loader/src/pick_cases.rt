// Picks of the better route. Buffers have dots where no letter is written; the part handed back stands first, then the lent number and both
// buffers.
use picking::pick;
use std::io;
use test_prints::{Letters, Request};

// On a map with these faults, with so many bytes in each buffer.
fn try_pick(
    rt: &impl Print,
    p: u32,
    q: u32,
    source: u32,
    destination: u32,
    m: usize,
    n: usize,
) -> io::Result<()> {
    let asked = Request::new(p, q, source, destination);
    let mut first = [b'.'; 20];
    let mut second = [b'.'; 20];
    let mut refusal = 99u32;
    let part = pick(
        10,
        8,
        &asked.faults.map(),
        asked.source,
        asked.destination,
        &mut first[..m.min(20)],
        &mut second[..n.min(20)],
        &mut refusal,
    );
    print!(rt; "pick round{asked}: {}", Letters(part))?;
    println!(rt; " {refusal} {} {}", Letters(&first), Letters(&second))
}

// The second is shorter, the first is, a tie; only one is served, by 9 or by 10; both refuse, for one reason or for two.
pub fn try_picks(rt: &impl Print) -> io::Result<()> {
    try_pick(rt, 34, 45, 15, 65, 20, 20)?;
    try_pick(rt, 34, 45, 62, 12, 20, 20)?;
    try_pick(rt, 34, 45, 30, 39, 20, 20)?;
    try_pick(rt, 44, 44, 45, 65, 20, 20)?;
    try_pick(rt, 43, 43, 44, 64, 20, 20)?;
    try_pick(rt, 34, 45, 30, 49, 20, 20)?;
    try_pick(rt, 34, 45, 30, 39, 12, 20)?;
    try_pick(rt, 34, 45, 15, 65, 11, 8)?;
    try_pick(rt, 34, 45, 15, 65, 0, 9)?;
    try_pick(rt, 34, 45, 0, 0, 0, 0)?;
    try_pick(rt, 44, 44, 45, 65, 20, 1)?;
    try_pick(rt, 43, 43, 44, 64, 1, 20)?;
    try_pick(rt, 34, 45, 15, 65, 10, 8)?;
    try_pick(rt, 34, 45, 15, 46, 20, 20)?;
    try_pick(rt, 34, 45, 15, 85, 20, 20)?;
    try_pick(rt, 4, 45, 15, 65, 20, 20)
}
