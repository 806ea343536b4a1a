// Blocks as boxes: each fault is a box, and two boxes less than 3 apart in column and less than 2 apart in row become the one around both.
ghost use Rattle.std.specs.Prelude.{◌≤◌, ◌<◌, length, IfSome};

// A box by its lowest row, lowest column, highest row and highest column.
#[derive(Clone, Copy)]
pub struct Area {
    pub south: u8,
    pub west: u8,
    pub north: u8,
    pub east: u8,
}

// More boxes than a mesh has room for, of which no two are close.
pub const MOST: usize = 1024;

impl Area {
    // The box of one node.
    pub fn node(row: u8, column: u8) -> Area {
        Area {
            south: row,
            west: column,
            north: row,
            east: column,
        }
    }

    // The box of node i of a map.
    fn node_at(columns: u8, i: usize) -> Area {
        if columns == 0 {
            return Area::node(0, 0);
        }
        let n = usize::from(columns);
        Area::node((i / n % 256) as u8, (i % n % 256) as u8)
    }

    // Whether the boxes meet, if one is grown by so many rows north and south and so many columns east and west.
    fn meets(self, other: Area, rows: u8, columns: u8) -> bool {
        self.south.saturating_sub(other.north) <= rows
            && other.south.saturating_sub(self.north) <= rows
            && self.west.saturating_sub(other.east) <= columns
            && other.west.saturating_sub(self.east) <= columns
    }

    // The box around both.
    fn around(self, other: Area) -> Area {
        Area {
            south: self.south.min(other.south),
            west: self.west.min(other.west),
            north: self.north.max(other.north),
            east: self.east.max(other.east),
        }
    }
}

// The first box that meets this one, grown so.
fn find(boxes: &[Area], a: Area, rows: u8, columns: u8) -> Option<usize>
    ensures { IfSome result (λ k. k < length boxes.now) }
{
    boxes.iter().position(|b| b.meets(a, rows, columns))
}

// Whether a node lies in one of the boxes, each grown so.
pub fn is_within(boxes: &[Area], row: u8, column: u8, rows: u8, columns: u8) -> bool {
    find(boxes, Area::node(row, column), rows, columns).is_some()
}

// Adds a box to n boxes of which no two are close, joining it with those that it is close to, one after another. Answers how many there are
// then.
fn join(list: &mut [Area; MOST], n: usize, a: Area) -> usize
    requires { n ≤ 1024 }
    ensures { result ≤ 1024 }
{
    let mut joined = a;
    let mut left = n;
    while let Some(k) = find(&list[..left], joined, 1, 2) {
        joined = joined.around(list[k]);
        left -= 1;
        list[k] = list[left];
    }
    if left == MOST {
        return left;
    }
    list[left] = joined;
    left + 1
}

// The boxes of the map's faults.
pub fn find_boxes<'a>(columns: u8, map: &[u8; 4096], list: &'a mut [Area; MOST]) -> &'a [Area] {
    let mut n = 0;
    for (i, x) in map.iter().enumerate() {
        if *x == 1 {
            n = join(list, n, Area::node_at(columns, i));
        }
    }
    &list[..n]
}

// Marks the sound nodes of a map that lie in boxes with 2.
pub fn mark_boxes(columns: u8, map: &mut [u8; 4096], boxes: &[Area]) {
    for (i, x) in map.iter_mut().enumerate() {
        if *x == 0 && find(boxes, Area::node_at(columns, i), 0, 0).is_some() {
            *x = 2;
        }
    }
}
