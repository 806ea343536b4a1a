// Headings: their letters, their codes, and last hops in numbers.
#![tactic(auto)]

ghost use Rattle.std.specs.Prelude.{◌≡◌, ◌||◌};
ghost use Rattle.mesh.specs.declared.Heading.TheVariants.{North, South};
ghost use Rattle.mesh.specs.Headings.{letter, same, last_is, named, code, direction, last_number, last_of};
ghost use Rattle.headings.specs.Codes.{Codes};

use mesh::Heading;

pub fn letter(h: Heading) -> u8
    ensures { result ≡ letter h }
{
    match h {
        Heading::East => b'E',
        Heading::North => b'N',
        Heading::South => b'S',
        Heading::West => b'W',
    }
}

// Whether the last hop was that way.
#[tactic(auto, unfolding(mesh::specs::Headings::last_is, mesh::specs::Headings::same))]
pub fn is_last(l: Option<Heading>, h: Heading) -> bool
    ensures { result ≡ last_is l h }
{
    l == Some(h)
}

#[tactic(auto, unfolding(mesh::specs::Headings::same))]
pub fn is_vertical(h: Heading) -> bool
    ensures { result ≡ same h North || same h South }
{
    matches!(h, Heading::North | Heading::South)
}

// The hop that a byte names, found by two tests or three: no table of jumps is made of them.
#[tactic(auto, unfolding(mesh::specs::Headings::named))]
pub fn read_letter(x: u8) -> Option<Heading>
    ensures { result ≡ named x }
{
    if x < b'O' {
        if x == b'E' {
            Some(Heading::East)
        } else if x == b'N' {
            Some(Heading::North)
        } else {
            None
        }
    } else if x == b'S' {
        Some(Heading::South)
    } else if x == b'W' {
        Some(Heading::West)
    } else {
        None
    }
}

// The code of the hop that a letter names, without a jump: turns of a route can't be foretold.
pub fn letter_code(x: u8) -> u32
    ensures { Codes x result }
{
    u32::from(x == b'N') + 2 * u32::from(x == b'W') + 3 * u32::from(x == b'S')
}

// The code of a direction: 0 E, 1 N, 2 W, 3 S. Its number counted from 0, with each bit changed where the one above it is set (a Gray code):
// no table is looked up.
pub fn code(h: Heading) -> u32
    ensures { result ≡ code h }
{
    let n = u32::from(h) - 1;
    n ^ (n / 2)
}

// The direction of a code.
#[tactic(auto, unfolding(mesh::specs::Headings::direction))]
pub fn direction(code: u32) -> Heading
    ensures { result ≡ direction code }
{
    match code {
        0 => Heading::East,
        1 => Heading::North,
        2 => Heading::West,
        _ => Heading::South,
    }
}

// The number of a last hop: 0 none, 1 E, 2 N, 3 S, 4 W.
pub fn last_number(last: Option<Heading>) -> u32
    ensures { result ≡ last_number last }
{
    last.map_or(0, u32::from)
}

// The last hop of that number.
#[tactic(auto, unfolding(mesh::specs::Headings::last_of))]
pub fn last_of(n: u32) -> Option<Heading>
    ensures { result ≡ last_of n }
{
    match n {
        1 => Some(Heading::East),
        2 => Some(Heading::North),
        3 => Some(Heading::South),
        4 => Some(Heading::West),
        _ => None,
    }
}
