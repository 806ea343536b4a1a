// Move on: the answer of each call, and the record after it.
use headings::letter;
use mesh::{Heading, Network, Packet};
use moving::moved_on;
use std::{fmt, io};
use test_prints::{At, Request};

// The letter of a hop, or a word where there is none.
#[derive(Clone, Copy)]
struct Hop<'a>(Option<Heading>, &'a str);

impl<'a> fmt::Display for Hop<'a> {
    fn fmt<W: fmt::Write>(&self, f: &mut fmt::Formatter<W>) -> fmt::Result {
        match self.0 {
            Some(h) => f.write_char(char::from(letter(h))),
            None => f.write_str(self.1),
        }
    }
}

fn print_record(rt: &impl Print, packet: Packet) -> io::Result<()> {
    let at = At(packet.place);
    let last = Hop(packet.last, "none");
    println!(rt; ": at{at}, last hop {last}, to{}", At(packet.destination))
}

// So many calls on a fresh packet, on a map with these faults.
fn try_on(rt: &impl Print, network: Network, asked: Request, calls: u32) -> io::Result<()> {
    println!(rt; "move on round{asked}")?;
    let map = asked.faults.map();
    let mut packet = Packet {
        place: asked.source,
        last: None,
        destination: asked.destination,
    };
    for _ in 0..calls {
        let stepped = moved_on(network, 10, 8, &map, packet);
        packet = stepped.packet;
        match stepped.moved {
            Ok(hop) => print!(rt; "{}", Hop(hop, "arrived"))?,
            Err(why) => print!(rt; "no {}", u32::from(why))?,
        }
        print_record(rt, packet)?;
    }
    Ok(())
}

fn try_packet(
    rt: &impl Print,
    p: u32,
    q: u32,
    source: u32,
    destination: u32,
    calls: u32,
) -> io::Result<()> {
    let asked = Request::new(p, q, source, destination);
    try_on(rt, Network::First, asked, calls)
}

// On the second network: to arrival, shut in, and at the edge.
pub fn try_second_network(rt: &impl Print) -> io::Result<()> {
    println!(rt; "second network")?;
    try_on(rt, Network::Second, Request::new(34, 45, 15, 65), 10)?;
    try_on(rt, Network::Second, Request::new(44, 44, 45, 65), 3)?;
    try_on(rt, Network::Second, Request::new(43, 43, 44, 40), 3)?;
    try_on(rt, Network::Second, Request::new(34, 45, 30, 49), 2)
}

// To arrival and beyond; refused at the start and on the way.
pub fn try_packets(rt: &impl Print) -> io::Result<()> {
    try_packet(rt, 34, 45, 15, 65, 13)?;
    try_packet(rt, 33, 36, 30, 39, 15)?;
    try_packet(rt, 44, 44, 45, 49, 6)?;
    try_packet(rt, 44, 44, 47, 47, 2)?;
    try_packet(rt, 44, 44, 45, 65, 2)?;
    try_packet(rt, 44, 44, 45, 40, 3)?;
    try_packet(rt, 44, 44, 46, 46, 2)?;
    try_packet(rt, 34, 45, 15, 54, 10)?;
    try_packet(rt, 44, 44, 44, 46, 2)?;
    try_packet(rt, 44, 44, 44, 80, 2)?;
    try_packet(rt, 31, 44, 44, 80, 2)
}
