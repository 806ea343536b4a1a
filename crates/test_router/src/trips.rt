// The hop rules and the turn rules, letter by letter. The last hop is a letter too, if there is one.
use crate::areas::{Area, is_within};

// Where a packet is and where it goes, on network 1 or 2.
#[derive(Clone, Copy)]
pub struct Trip {
    pub network: u8,
    pub row: u8,
    pub column: u8,
    pub to_row: u8,
    pub to_column: u8,
}

fn opposite(h: u8) -> u8 {
    match h {
        b'E' => b'W',
        b'N' => b'S',
        b'S' => b'N',
        _ => b'E',
    }
}

impl Trip {
    pub fn is_over(self) -> bool {
        self.row == self.to_row && self.column == self.to_column
    }

    // The trip after a hop.
    pub fn after(self, h: u8) -> Trip {
        match h {
            b'E' => Trip {
                column: self.column.wrapping_add(1),
                ..self
            },
            b'N' => Trip {
                row: self.row.wrapping_add(1),
                ..self
            },
            b'S' => Trip {
                row: self.row.wrapping_sub(1),
                ..self
            },
            _ => Trip {
                column: self.column.wrapping_sub(1),
                ..self
            },
        }
    }

    // Whether the packet is in a block.
    pub fn is_shut(self, boxes: &[Area]) -> bool {
        is_within(boxes, self.row, self.column, 0, 0)
    }

    fn side(self) -> u8 {
        if self.column < self.to_column {
            b'E'
        } else {
            b'W'
        }
    }

    fn toward(self) -> u8 {
        if self.row < self.to_row { b'N' } else { b'S' }
    }

    // Whether the packet's column is odd; on network 2, where odd and even are exchanged, whether it is even.
    fn is_odd(self) -> bool {
        (self.column % 2 == 1) != (self.network == 2)
    }

    // Odd columns for a packet going east, even ones for a packet going west.
    fn is_own(self, h: u8) -> bool {
        self.is_odd() == (h == b'E')
    }

    // Whether the packet is stopped: the next node to the side is in a block, or the second from a column of its own.
    fn is_stopped(self, boxes: &[Area]) -> bool {
        let h = self.side();
        let next = self.after(h);
        next.is_shut(boxes) || (self.is_own(h) && next.after(h).is_shut(boxes))
    }

    // Rules 4 and 6: toward the destination's row from a column of its own, else on.
    fn hop_level(self, boxes: &[Area], on: u8) -> u8 {
        let h = self.toward();
        if self.is_own(on) && !self.after(h).is_shut(boxes) {
            h
        } else {
            on
        }
    }

    // Rules 2 and 3: to the side, or if stopped on in the column, north if the last hop was not in it.
    fn hop_aside(self, boxes: &[Area], last: Option<u8>) -> u8 {
        if !self.is_stopped(boxes) {
            self.side()
        } else if last == Some(b'S') {
            b'S'
        } else {
            b'N'
        }
    }

    // Rule 5: on in the column, toward the destination's row.
    fn hop_on(self, boxes: &[Area], h: u8) -> u8 {
        if self.after(h).is_shut(boxes) {
            b'W'
        } else {
            h
        }
    }

    // The hop by the rules of a packet that is not at its destination.
    pub fn next_hop(self, boxes: &[Area], last: Option<u8>) -> u8 {
        if self.row == self.to_row {
            return self.hop_aside(boxes, last);
        }
        match last {
            Some(b'E') => self.hop_level(boxes, b'E'),
            Some(h @ (b'N' | b'S')) if h == self.toward() => self.hop_on(boxes, h),
            Some(b'N' | b'S') => self.hop_aside(boxes, last),
            _ => self.hop_level(boxes, b'W'),
        }
    }

    // The rule of document 001 that a turn breaks: EN and ES are forbidden in even columns, NW and SW in odd ones.
    pub fn broken_rule(self, last: Option<u8>, h: u8) -> Option<u32> {
        match (self.is_odd(), last, h) {
            (false, Some(b'E'), b'N') | (true, Some(b'N'), b'W') => Some(1),
            (false, Some(b'E'), b'S') | (true, Some(b'S'), b'W') => Some(2),
            _ => None,
        }
    }

    // Whether a hop reverses, or breaks a rule.
    pub fn is_forbidden(self, last: Option<u8>, h: u8) -> bool {
        is_reversal(last, h) || self.broken_rule(last, h).is_some()
    }
}

pub fn is_reversal(last: Option<u8>, h: u8) -> bool {
    last == Some(opposite(h))
}
