// Judge a hand-in.
use judging::judge;
use mesh::Network;
use numbers::{judged_code, judged_index};
use std::io;
use test_prints::{Letters, Request};

// A hand-in on a map with these faults.
fn try_on(
    rt: &impl Print,
    network: Network,
    what: &str,
    asked: Request,
    letters: &[u8],
) -> io::Result<()> {
    let answer = judge(
        network,
        10,
        8,
        &asked.faults.map(),
        asked.source,
        asked.destination,
        letters,
    );
    let code = judged_code(answer);
    let index = judged_index(answer);
    println!(rt; "{what}{asked} {}: {code} at {index}", Letters(letters))
}

fn try_letters(
    rt: &impl Print,
    p: u32,
    q: u32,
    source: u32,
    destination: u32,
    letters: &[u8],
) -> io::Result<()> {
    let asked = Request::new(p, q, source, destination);
    try_on(rt, Network::First, "judge round", asked, letters)
}

// A bench case and the misreadings: on map C north round both blocks, straight north from an odd column, and WN and WS, which are free in
// every column.
fn try_routes(rt: &impl Print) -> io::Result<()> {
    try_letters(rt, 33, 36, 30, 39, b"ENEEEESSEENEE")?;
    try_letters(rt, 33, 36, 30, 39, b"ENEEEESNNEEEESEE")?;
    try_letters(rt, 34, 45, 15, 65, b"NNNNN")?;
    try_letters(rt, 34, 45, 16, 25, b"WN")?;
    try_letters(rt, 34, 45, 16, 5, b"WS")
}

// The turns of rule 1, then those of rule 2, in a column where they are forbidden and in one where they are not.
fn try_turns(rt: &impl Print) -> io::Result<()> {
    try_letters(rt, 34, 45, 15, 26, b"EN")?;
    try_letters(rt, 34, 45, 16, 27, b"EN")?;
    try_letters(rt, 34, 45, 17, 26, b"NW")?;
    try_letters(rt, 34, 45, 16, 25, b"NW")?;
    try_letters(rt, 34, 45, 15, 6, b"ES")?;
    try_letters(rt, 34, 45, 16, 7, b"ES")?;
    try_letters(rt, 34, 45, 17, 6, b"SW")?;
    try_letters(rt, 34, 45, 16, 5, b"SW")
}

// Forbidden turns that enter a block besides, and some that leave the mesh besides.
fn try_turns_and_more(rt: &impl Print) -> io::Result<()> {
    try_letters(rt, 34, 45, 23, 24, b"EN")?;
    try_letters(rt, 34, 45, 53, 54, b"ES")?;
    try_letters(rt, 44, 44, 35, 36, b"NW")?;
    try_letters(rt, 44, 44, 55, 56, b"SW")?;
    try_letters(rt, 34, 45, 73, 74, b"EN")?;
    try_letters(rt, 34, 45, 3, 4, b"ES")
}

// To the sides of a block, where no route is given: the hops by the rules, which end in a forbidden turn, and routes that pass.
fn try_sides(rt: &impl Print) -> io::Result<()> {
    try_letters(rt, 34, 45, 15, 46, b"WNWWNNENEEEESW")?;
    try_letters(rt, 34, 45, 17, 46, b"WNNN")?;
    try_letters(rt, 43, 43, 41, 42, b"NEEEESW")?;
    try_letters(rt, 43, 43, 41, 42, b"E")
}

pub fn try_hand_ins(rt: &impl Print) -> io::Result<()> {
    try_routes(rt)?;
    try_turns(rt)?;
    try_turns_and_more(rt)?;
    try_sides(rt)
}

// Four hand-ins round a square, which would wait in a ring (document 02, E9): on each network one of them makes a forbidden turn.
fn try_square(rt: &impl Print, network: Network, what: &str) -> io::Result<()> {
    try_on(rt, network, what, Request::new(34, 45, 16, 27), b"EN")?;
    try_on(rt, network, what, Request::new(34, 45, 17, 26), b"NW")?;
    try_on(rt, network, what, Request::new(34, 45, 27, 16), b"WS")?;
    try_on(rt, network, what, Request::new(34, 45, 26, 17), b"SE")
}

pub fn try_ring(rt: &impl Print) -> io::Result<()> {
    try_square(rt, Network::First, "a ring, judge round")?;
    try_square(
        rt,
        Network::Second,
        "a ring on the second network, judge round",
    )
}

// On map A, on the second network.
fn try_second(rt: &impl Print, source: u32, destination: u32, letters: &[u8]) -> io::Result<()> {
    let asked = Request::new(34, 45, source, destination);
    try_on(
        rt,
        Network::Second,
        "second network, judge round",
        asked,
        letters,
    )
}

// The turns of rule 1, then those of rule 2, on the second network; and one that leaves the mesh where the turn is forbidden.
pub fn try_second_network(rt: &impl Print) -> io::Result<()> {
    try_second(rt, 15, 26, b"EN")?;
    try_second(rt, 16, 27, b"EN")?;
    try_second(rt, 17, 26, b"NW")?;
    try_second(rt, 16, 25, b"NW")?;
    try_second(rt, 15, 6, b"ES")?;
    try_second(rt, 16, 7, b"ES")?;
    try_second(rt, 17, 6, b"SW")?;
    try_second(rt, 16, 5, b"SW")?;
    try_second(rt, 0, 10, b"NW")
}
