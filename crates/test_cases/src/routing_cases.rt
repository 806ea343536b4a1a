// Route. The output has dots where no letter is written.
use mesh::Network;
use numbers::place_of;
use routing::route;
use std::io;
use test_prints::{Answer, Letters, Request};

// A request on a map with these faults.
fn try_on(rt: &impl Print, network: Network, what: &str, asked: Request) -> io::Result<()> {
    let mut out = [b'.'; 20];
    let map = asked.faults.map();
    let answer = route(
        network,
        10,
        8,
        &map,
        asked.source,
        asked.destination,
        &mut out,
    );
    let answer = Answer(answer.map_err(u32::from));
    println!(rt; "{what}{asked}{answer} {}", Letters(&out))
}

fn try_route(rt: &impl Print, p: u32, q: u32, source: u32, destination: u32) -> io::Result<()> {
    let asked = Request::new(p, q, source, destination);
    try_on(rt, Network::First, "route round", asked)
}

fn try_second(rt: &impl Print, p: u32, q: u32, source: u32, destination: u32) -> io::Result<()> {
    let asked = Request::new(p, q, source, destination);
    try_on(rt, Network::Second, "second network, route round", asked)
}

// On one column of eight rows, on the second network.
fn try_column(rt: &impl Print, row: u32, to_row: u32) -> io::Result<()> {
    let mut out = [b'.'; 8];
    let s = place_of(row, 0);
    let d = place_of(to_row, 0);
    let answer = route(Network::Second, 1, 8, &[0; 8], s, d, &mut out);
    let answer = Answer(answer.map_err(u32::from));
    println!(rt;
        "second network, one column, from row {row} to row {to_row}{answer} {}",
        Letters(&out)
    )
}

// Round one block: its rows and the rows next to it.
fn try_near(rt: &impl Print) -> io::Result<()> {
    try_route(rt, 34, 45, 15, 54)?;
    try_route(rt, 34, 45, 49, 54)?;
    try_route(rt, 34, 45, 64, 25)?;
    try_route(rt, 34, 45, 15, 41)?;
    try_route(rt, 34, 45, 15, 32)?;
    try_route(rt, 34, 45, 15, 33)?;
    try_route(rt, 34, 45, 15, 46)?;
    try_route(rt, 34, 45, 15, 47)?;
    try_route(rt, 34, 45, 15, 48)?;
    try_route(rt, 43, 43, 41, 42)
}

pub fn try_routes(rt: &impl Print) -> io::Result<()> {
    try_route(rt, 34, 45, 15, 65)?;
    try_route(rt, 34, 45, 14, 39)?;
    try_route(rt, 34, 45, 30, 39)?;
    try_route(rt, 34, 45, 49, 40)?;
    try_route(rt, 33, 36, 30, 39)?;
    try_route(rt, 44, 44, 45, 65)?;
    try_route(rt, 44, 44, 45, 40)?;
    try_route(rt, 44, 44, 45, 49)?;
    try_route(rt, 44, 44, 0, 46)?;
    try_route(rt, 44, 44, 49, 46)?;
    try_route(rt, 44, 44, 49, 47)?;
    try_route(rt, 44, 44, 47, 47)?;
    try_route(rt, 44, 44, 0, 0)?;
    try_near(rt)
}

// The second network: some of the same requests; sources that are shut in on one network and served on the other; sources in column 0.
pub fn try_second_network(rt: &impl Print) -> io::Result<()> {
    try_second(rt, 34, 45, 15, 65)?;
    try_second(rt, 34, 45, 14, 39)?;
    try_second(rt, 34, 45, 30, 39)?;
    try_second(rt, 34, 45, 49, 40)?;
    try_second(rt, 33, 36, 30, 39)?;
    try_second(rt, 44, 44, 45, 65)?;
    try_second(rt, 43, 43, 44, 64)?;
    try_route(rt, 43, 43, 44, 64)?;
    try_second(rt, 43, 43, 44, 40)?;
    try_second(rt, 43, 43, 44, 49)?;
    try_second(rt, 34, 45, 30, 49)?;
    try_second(rt, 44, 44, 40, 49)?;
    try_second(rt, 44, 44, 40, 40)?;
    try_column(rt, 3, 3)?;
    try_column(rt, 3, 4)?;
    try_column(rt, 3, 0)?;
    try_column(rt, 0, 7)
}
