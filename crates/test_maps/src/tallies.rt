// What was tried, on either network, and what of it held.
ghost use Rattle.std.specs.Prelude.{◌<◌};

use std::fmt;

// What is tried: requests, by the refusal that they are to have or none; the marks of a map; the bound on a route's hops; hand-ins, by the number
// of what is to be wrong with them, or 0.
#[derive(Clone, Copy)]
pub enum Thing {
    Served,
    Refused(u32),
    Marked,
    Bounded,
    Judged(u32),
}

impl Thing {
    // Each has a number below 32.
    fn number(self) -> u32
        ensures { result < 32 }
    {
        let n = match self {
            Thing::Served => 0,
            Thing::Refused(n) => n,
            Thing::Marked => 11,
            Thing::Bounded => 12,
            Thing::Judged(n) => n.wrapping_add(14),
        };
        n % 32
    }
}

// How often something held, and how often it was tried.
#[derive(Clone, Copy)]
pub struct Tally {
    held: u64,
    tried: u64,
}

impl fmt::Display for Tally {
    fn fmt<W: fmt::Write>(&self, f: &mut fmt::Formatter<W>) -> fmt::Result {
        write!(f, "{} of {}", self.held, self.tried)
    }
}

// A tally for each thing on either network.
#[derive(Drop)]
pub struct Tallies {
    list: [Tally; 64],
}

fn place(network: u8, thing: Thing) -> usize
    ensures { result < 64 }
{
    (32 * u32::from(network % 2) + thing.number()) as usize
}

impl Tallies {
    pub fn new() -> Tallies {
        Tallies {
            list: [Tally { held: 0, tried: 0 }; 64],
        }
    }

    pub fn of(&self, network: u8, thing: Thing) -> Tally {
        self.list[place(network, thing)]
    }

    pub fn count(&mut self, network: u8, thing: Thing, held: bool) {
        let i = place(network, thing);
        let old = self.list[i];
        self.list[i] = Tally {
            held: old.held.wrapping_add(u64::from(held)),
            tried: old.tried.wrapping_add(1),
        };
    }
}
