// Maps of 10 columns and 8 rows with one fault or two, and how faults, requests, answers and bytes are printed.
#![tactic(auto)]

use mesh::Place;
use numbers::place_of;
use std::fmt;

// Node p: its row is the first digit of p, its column the last.
pub fn node(p: u32) -> Place {
    place_of(p / 10, p % 10)
}

// A place, with a space before it.
#[derive(Clone, Copy)]
pub struct At(pub Place);

impl fmt::Display for At {
    fn fmt<W: fmt::Write>(&self, f: &mut fmt::Formatter<W>) -> fmt::Result {
        write!(f, " ({},{})", self.0.row.0, self.0.column.0)
    }
}

// The nodes of two faults, or twice that of one.
#[derive(Clone, Copy)]
pub struct Faults(pub u32, pub u32);

impl Faults {
    pub fn map(self) -> [u8; 80] {
        let mut map = [0u8; 80];
        map[(self.0 % 80) as usize] = 1;
        map[(self.1 % 80) as usize] = 1;
        map
    }
}

impl fmt::Display for Faults {
    fn fmt<W: fmt::Write>(&self, f: &mut fmt::Formatter<W>) -> fmt::Result {
        write!(f, "{}", At(node(self.0)))?;
        if self.0 != self.1 {
            write!(f, "{}", At(node(self.1)))?;
        }
        Ok(())
    }
}

// What is asked, on a map with these faults.
#[derive(Clone, Copy)]
pub struct Request {
    pub faults: Faults,
    pub source: Place,
    pub destination: Place,
}

impl Request {
    pub fn new(p: u32, q: u32, source: u32, destination: u32) -> Request {
        Request {
            faults: Faults(p, q),
            source: node(source),
            destination: node(destination),
        }
    }
}

impl fmt::Display for Request {
    fn fmt<W: fmt::Write>(&self, f: &mut fmt::Formatter<W>) -> fmt::Result {
        let source = At(self.source);
        let destination = At(self.destination);
        write!(f, "{}, from{source} to{destination}", self.faults)
    }
}

// A number, or that of a refusal.
#[derive(Clone, Copy)]
pub struct Answer(pub Result<u32, u32>);

impl fmt::Display for Answer {
    fn fmt<W: fmt::Write>(&self, f: &mut fmt::Formatter<W>) -> fmt::Result {
        match self.0 {
            Ok(n) => write!(f, ": {n}"),
            Err(why) => write!(f, ": no {why}"),
        }
    }
}

// Bytes as letters.
#[derive(Clone, Copy)]
pub struct Letters<'a>(pub &'a [u8]);

impl<'a> fmt::Display for Letters<'a> {
    fn fmt<W: fmt::Write>(&self, f: &mut fmt::Formatter<W>) -> fmt::Result {
        for letter in self.0 {
            f.write_char(char::from(*letter))?;
        }
        Ok(())
    }
}

// Bytes as numbers.
#[derive(Clone, Copy)]
pub struct Bytes<'a>(pub &'a [u8]);

impl<'a> fmt::Display for Bytes<'a> {
    fn fmt<W: fmt::Write>(&self, f: &mut fmt::Formatter<W>) -> fmt::Result {
        for byte in self.0 {
            write!(f, " {byte}")?;
        }
        Ok(())
    }
}
