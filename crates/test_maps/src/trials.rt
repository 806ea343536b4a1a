// One map after another: its marks and blocks, and requests and hand-ins on it.
use crate::draws::{Shape, draw, draw_trip};
use crate::hand_ins::{change_letter, draw_length};
use crate::tallies::{Tallies, Thing};
use judging::judge;
use marking::mark_blocks;
use mesh::{Network, NotPassed, Place};
use numbers::place_of;
use routing::route;
use test_router::answers::{Size, answer_route, bound};
use test_router::areas::{Area, MOST, find_boxes, mark_boxes};
use test_router::rounds::count_rounds;
use test_router::trips::Trip;
use test_router::verdicts::{Wrong, judge_letters};

// A mesh, its map, and the boxes of its faults.
#[derive(Clone, Copy)]
struct Drawn<'a> {
    size: Size,
    map: &'a [u8],
    boxes: &'a [Area],
}

// The first n bytes, or all if there are fewer.
fn start(xs: &[u8], n: usize) -> &[u8] {
    &xs[..n.min(xs.len())]
}

// Whether an output holds these bytes, and 7 in each later place, as it did before.
fn holds(out: &[u8], bytes: &[u8]) -> bool {
    out.strip_prefix(bytes)
        .is_some_and(|rest| rest.iter().all(|x| *x == 7))
}

fn network_of(t: Trip) -> Network {
    if t.network == 2 {
        Network::Second
    } else {
        Network::First
    }
}

fn source_of(t: Trip) -> Place {
    place_of(u32::from(t.row), u32::from(t.column))
}

fn destination_of(t: Trip) -> Place {
    place_of(u32::from(t.to_row), u32::from(t.to_column))
}

// Mostly room for every letter.
fn draw_room(seed: u32) -> usize {
    if draw(seed, 4, 10) == 0 {
        usize::from(draw(seed, 5, 20))
    } else {
        4096
    }
}

impl<'a> Drawn<'a> {
    // Whether marking answers a block for each box and so many rounds, and writes these marks.
    fn marks(self, rounds: u32, marked: &[u8]) -> bool {
        let mut out = [7u8; 4096];
        let (columns, rows) = (u32::from(self.size.columns), u32::from(self.size.rows));
        match mark_blocks(columns, rows, self.map, &mut out) {
            Ok(answer) => {
                answer.blocks as usize == self.boxes.len()
                    && answer.rounds == rounds
                    && holds(&out, marked)
            }
            Err(_) => false,
        }
    }

    // Whether routing answers this, and writes these letters and nothing else.
    fn routes(self, t: Trip, room: usize, answer: Result<u32, u32>, letters: &[u8]) -> bool {
        let mut out = [7u8; 4096];
        let routed = route(
            network_of(t),
            u32::from(self.size.columns),
            u32::from(self.size.rows),
            self.map,
            source_of(t),
            destination_of(t),
            &mut out[..room.min(4096)],
        );
        routed.map_err(u32::from) == answer && holds(&out, letters)
    }

    // Whether judging says this.
    fn judges(self, t: Trip, letters: &[u8], verdict: Result<usize, Wrong>) -> bool {
        let judged = judge(
            network_of(t),
            u32::from(self.size.columns),
            u32::from(self.size.rows),
            self.map,
            source_of(t),
            destination_of(t),
            letters,
        );
        match judged {
            Ok(n) => verdict == Ok(n),
            Err(NotPassed::Wrong(mistake, index)) => {
                let number = u32::from(mistake);
                verdict == Err(Wrong { number, index })
            }
            Err(NotPassed::Refused(_)) => false,
        }
    }

    fn try_hand_in(self, tallies: &mut Tallies, t: Trip, letters: &[u8]) {
        let verdict = judge_letters(self.size, self.boxes, t, letters);
        let number = match verdict {
            Ok(_) => 0,
            Err(wrong) => wrong.number,
        };
        let held = self.judges(t, letters, verdict);
        tallies.count(t.network, Thing::Judged(number), held);
    }

    // A request, and if it is served a hand-in of its letters, one of them changed.
    fn try_send(self, tallies: &mut Tallies, seed: u32) {
        let t = draw_trip(seed, self.size);
        let room = draw_room(seed);
        let mut letters = [0u8; 4096];
        let answer = answer_route(self.size, self.boxes, t, room, &mut letters);
        match answer {
            Ok(hops) => {
                let n = (hops as usize).min(4096);
                let held = self.routes(t, room, answer, &letters[..n]);
                tallies.count(t.network, Thing::Served, held);
                tallies.count(t.network, Thing::Bounded, hops <= bound(self.boxes, t));
                change_letter(&mut letters[..n], seed);
                self.try_hand_in(tallies, t, start(&letters, draw_length(seed, n)));
            }
            Err(why) => {
                let held = self.routes(t, room, answer, b"");
                tallies.count(t.network, Thing::Refused(why), held);
            }
        }
    }
}

// A map: its marks, and so many requests on it.
fn try_map(tallies: &mut Tallies, shape: Shape, sends: u32, seed: u32) {
    let size = shape.size;
    let mut map = [0u8; 4096];
    shape.draw_faults(&mut map, seed);
    let mut list = [Area::node(0, 0); MOST];
    let boxes = find_boxes(size.columns, &map, &mut list);
    let mut marked = map;
    mark_boxes(size.columns, &mut marked, boxes);
    let n = usize::from(size.columns) * usize::from(size.rows);
    let drawn = Drawn {
        size,
        map: start(&map, n),
        boxes,
    };
    let held = drawn.marks(count_rounds(size, &map), start(&marked, n));
    tallies.count(1, Thing::Marked, held);
    for i in 1..=sends {
        drawn.try_send(tallies, seed.wrapping_add(i));
    }
}

// So many maps of a shape, or small ones of any, with so many requests on each. A map has 32 seeds: its own, one for its other stretches, and one
// for each request.
pub fn try_maps(tallies: &mut Tallies, shape: Option<Shape>, first: u32, maps: u32, sends: u32) {
    for i in 0..maps {
        let seed = first.wrapping_add(i.wrapping_mul(32));
        try_map(
            tallies,
            shape.unwrap_or_else(|| Shape::small(seed)),
            sends,
            seed,
        );
    }
}
