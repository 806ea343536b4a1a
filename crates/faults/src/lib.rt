// The faults of a map: how many there are, and which of a row are close to each other.
#![tactic(auto)]

ghost use Rattle.std.specs.Prelude.{◌≡◌, ◌≤◌, ◌<◌, length};
ghost use Rattle.mesh.specs.Nodes.{how_many};
ghost use Rattle.faults.specs.Groups.{fault_before, Near, Group};

// The number of faults. In 32 bits more of them are counted at once.
pub fn count_faults(map: &[u8]) -> u32
    requires { length map.now ≤ 4096 }
    ensures { result ≡ how_many 1 map.now }
{
    map.iter().map(|x| u32::from(*x == 1)).sum()
}

// Whether there is a fault at index i, before index end.
#[tactic(auto, unfolding(crate::specs::Groups::fault_before, mesh::specs::Nodes::is_bad))]
fn is_fault(map: &[u8], i: usize, end: usize) -> bool
    requires { end ≤ length map.now }
    ensures { result ≡ fault_before map.now end i }
{
    i < end && map[i] != 0
}

// The next fault after index i, if it is less than 3 from it and before index end.
fn next_near(map: &[u8], i: usize, end: usize) -> Option<usize>
    requires { (i < end) × (end ≤ length map.now) }
    ensures { Near map.now end i result }
{
    if is_fault(map, i + 1, end) {
        Some(i + 1)
    } else if is_fault(map, i + 2, end) {
        Some(i + 2)
    } else {
        None
    }
}

// The last of the faults from index i on, before index end, of which each is less than 3 from the next.
pub fn group_end(map: &[u8], i: usize, end: usize) -> usize
    requires { (i < end) × (end ≤ length map.now) }
    ensures { Group map.now end i result }
{
    let mut last = i;
    while let Some(next) = next_near(map, last, end) {
        last = next;
    }
    last
}
