// Random maps, requests and hand-ins on either network: marking, routing and judging set against the test router. Prints how many of what was
// tried came out as it should.
#![tactic(auto)]

mod draws;
mod hand_ins;
mod tallies;
mod trials;

use draws::Shape;
use std::io;
use tallies::{Tallies, Thing};
use test_router::answers::Size;
use trials::try_maps;

fn make_shape(columns: u8, rows: u8, stretch: u8, one_in: u8) -> Option<Shape> {
    Some(Shape {
        size: Size { columns, rows },
        stretch,
        one_in,
    })
}

// Small meshes from one node on, thin ones, and the largest.
fn try_all(tallies: &mut Tallies) {
    try_maps(tallies, None, 0, 2000, 10);
    try_maps(tallies, make_shape(64, 6, 12, 8), 100000, 20, 20);
    try_maps(tallies, make_shape(7, 64, 12, 8), 200000, 20, 20);
    try_maps(tallies, make_shape(64, 64, 1, 250), 300000, 10, 20);
    try_maps(tallies, make_shape(64, 64, 1, 30), 400000, 10, 20);
    try_maps(tallies, make_shape(64, 64, 20, 25), 500000, 10, 20);
}

fn print_network(rt: &impl Print, tallies: &Tallies, network: u8) -> io::Result<()> {
    println!(rt; "served {}", tallies.of(network, Thing::Served))?;
    for n in 6..11 {
        println!(rt; "refusal {n} {}", tallies.of(network, Thing::Refused(n)))?;
    }
    println!(rt;
        "routes within the bound {}",
        tallies.of(network, Thing::Bounded)
    )?;
    println!(rt; "hand-ins passed {}", tallies.of(network, Thing::Judged(0)))?;
    for n in 11..18 {
        println!(rt;
            "hand-ins failed with {n} {}",
            tallies.of(network, Thing::Judged(n))
        )?;
    }
    Ok(())
}

fn main(rt: HostRuntime) -> io::Result<()> {
    let mut tallies = Tallies::new();
    try_all(&mut tallies);
    println!(rt;
        "maps marked, rounds counted {}",
        tallies.of(1, Thing::Marked)
    )?;
    println!(rt; "first network")?;
    print_network(&rt, &tallies, 1)?;
    println!(rt; "second network")?;
    print_network(&rt, &tallies, 2)
}
