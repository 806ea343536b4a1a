// Legs to letters (document 02, E3): the file is read through and its letters counted; once nothing is refused they are written.
#![tactic(auto)]

ghost use Rattle.std.specs.Prelude.{◌≡◌, ◌≤◌, ◌+◌, ◌/◌, ◌%◌, length, replicate};
ghost use Rattle.mesh.specs.Headings.{letter, direction};
ghost use Rattle.buffers.specs.Over.{over, Puts};
ghost use Rattle.theory_legs.specs.Converting.{LegsToLetters};
ghost use Rattle.to_letters.specs.Counted.{CountsLegs, CountsFile, Readable, letters_from};

use buffers::{fill, put_byte};
use groups::read_number;
use headings::{direction, letter};
use theory_legs::LegRefusal;

// A number of legs from index first of a file on: their number of letters, and the index after them; or why they are refused.
fn count_legs(file: &[u8], first: usize, legs: u32) -> Result<(usize, usize), LegRefusal>
    requires { legs ≤ 65535 }
    ensures { CountsLegs file.now first legs result }
{
    let mut at = first;
    let mut total: usize = 0;
    let mut before: Option<u32> = None;
    for _ in 0..legs {
        let (n, next) = read_number(file, at)?;
        let code = n % 4;
        if before == Some(code) {
            return Err(LegRefusal::SameDirection);
        }
        before = Some(code);
        total += (n / 4 + 1) as usize;
        at = next;
    }
    Ok((total, at))
}

// A file: its number of legs, the index of the first and the number of their letters.
#[derive(Clone, Copy)]
pub struct Counted {
    pub legs: u32,
    pub first: usize,
    pub total: usize,
}

fn count_file(file: &[u8]) -> Result<Counted, LegRefusal>
    ensures { CountsFile file.now result }
{
    let (legs, first) = read_number(file, 0)?;
    let (total, end) = count_legs(file, first, legs)?;
    if end < file.len() {
        return Err(LegRefusal::LeftOver);
    }
    Ok(Counted { legs, first, total })
}

// Writes the letters of the leg of a number from index to on, and answers the index after them.
fn put_leg(out: &mut [u8], to: usize, n: u32) -> usize
    requires { to + (n / 4 + 1) ≤ length out.old }
    ensures { Puts out.old to (replicate (n / 4 + 1) (letter (direction (n % 4)))) result out.new }
{
    let byte = letter(direction(n % 4));
    if n < 4 {
        return put_byte(out, to, byte);
    }
    let length = (n / 4 + 1) as usize;
    fill(out, to, length, byte);
    to + length
}

// Writes the letters of a number of legs from index first of a file on, which are not refused.
fn write_letters(file: &[u8], first: usize, legs: u32, out: &mut [u8])
    requires { Readable file.now first legs out.old }
    ensures { out.new ≡ over out.old 0 (letters_from file.now first legs) }
{
    let mut at = first;
    let mut to: usize = 0;
    for _ in 0..legs {
        let Ok((n, next)) = read_number(file, at) else {
            return
        };
        to = put_leg(out, to, n);
        at = next;
    }
}

pub fn legs_to_letters(file: &[u8], out: &mut [u8]) -> Result<usize, LegRefusal>
    ensures { LegsToLetters file.now out.old result out.new }
{
    let counted = count_file(file)?;
    if out.len() < counted.total {
        return Err(LegRefusal::Room);
    }
    write_letters(file, counted.first, counted.legs, out);
    Ok(counted.total)
}
