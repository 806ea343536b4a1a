// Letters to legs (document 02, E3): all letters are looked through and their legs measured; once nothing is refused the file is written.
#![tactic(auto)]

ghost use Rattle.std.specs.Prelude.{◌≡◌, true, false, ◌≤◌, ◌<◌, ◌+◌, ◌-◌, ◌*◌, length, IfOk, IfErr};
ghost use Rattle.mesh.specs.Headings.{named};
ghost use Rattle.buffers.specs.Over.{over};
ghost use Rattle.theory_legs.specs.Files.{leg_bytes};
ghost use Rattle.theory_legs.specs.Converting.{is_other, some_other, too_long, legs_of, file_of, LettersToLegs};
ghost use Rattle.theory_legs.specs.declared.LegRefusal.TheVariants.{TooLong};
ghost use Rattle.to_legs.specs.Measured.{LegSize, Measures, LegsWritable, FileWritable};

use groups::{number_size, put_number};
use headings::letter_code;
use runs::run_end;
use theory_legs::LegRefusal;

// A byte is none of the four letters.
#[tactic(auto, unfolding(mesh::specs::Headings::named, theory_legs::specs::Converting::is_other))]
fn is_other(x: u8) -> bool
    ensures { result ≡ is_other (named x) }
{
    (x != b'E') & (x != b'N') & (x != b'S') & (x != b'W')
}

// Some byte is none of the four letters. No test ends the fold, so that many are looked at together.
fn has_other(letters: &[u8]) -> bool
    ensures { result ≡ some_other letters.now }
{
    letters.iter().fold(false, |other, x| other | is_other(*x))
}

// How many bytes a leg has, by its length.
fn leg_size(length: usize) -> usize
    requires { 1 ≤ length }
    ensures { LegSize length result }
{
    if length <= 32 {
        1
    } else if length <= 4096 {
        2
    } else {
        3
    }
}

// How many legs letters have, and how many bytes these have.
#[derive(Clone, Copy)]
pub struct Measured {
    pub legs: usize,
    pub bytes: usize,
}

// The measures of the legs of letters, unless one is over 16,384 or there are over 65,535.
fn measure_legs(letters: &[u8]) -> Result<Measured, LegRefusal>
    requires { some_other letters.now ≡ false }
    ensures measured { IfOk result (λ m. Measures letters.now m) }
    ensures long { IfErr result (λ why. (too_long (legs_of letters.now) ≡ true) × (why ≡ TooLong)) }
{
    let n = letters.len();
    let mut i = 0;
    let mut legs: usize = 0;
    let mut bytes: usize = 0;
    // From run to run: `chunk_by` would find each run's end byte by byte.
    while i < n {
        let end = run_end(letters, i);
        if 16384 < end - i {
            return Err(LegRefusal::TooLong);
        }
        legs += 1;
        bytes += leg_size(end - i);
        i = end;
    }
    if 65535 < legs {
        return Err(LegRefusal::TooLong);
    }
    Ok(Measured { legs, bytes })
}

// A leg's number, by its length and its direction's code.
fn leg_number(length: usize, code: u32) -> u32
    requires { (1 ≤ length) × (length ≤ 16384) × (code < 4) }
    ensures { result ≡ (length - 1) * 4 + code }
{
    ((length - 1) * 4) as u32 + code
}

// Writes the legs of letters from index first on.
fn write_legs(letters: &[u8], first: usize, out: &mut [u8])
    requires { LegsWritable letters.now first out.old }
    ensures { out.new ≡ over out.old first (leg_bytes (legs_of letters.now)) }
{
    let n = letters.len();
    let mut at = first;
    let mut i = 0;
    // From run to run, as above.
    while i < n {
        let code = letter_code(letters[i]);
        let end = run_end(letters, i);
        at = put_number(out, at, leg_number(end - i, code));
        i = end;
    }
}

// Writes the file of letters.
fn write_file(letters: &[u8], legs: u32, out: &mut [u8])
    requires { FileWritable letters.now legs out.old }
    ensures { out.new ≡ over out.old 0 (file_of letters.now) }
{
    let first = put_number(out, 0, legs);
    write_legs(letters, first, out);
}

pub fn letters_to_legs(letters: &[u8], out: &mut [u8]) -> Result<usize, LegRefusal>
    ensures { LettersToLegs letters.now out.old result out.new }
{
    if has_other(letters) {
        return Err(LegRefusal::NoLetter);
    }
    let measured = measure_legs(letters)?;
    let bytes = number_size(measured.legs) + measured.bytes;
    if out.len() < bytes {
        return Err(LegRefusal::Room);
    }
    write_file(letters, measured.legs as u32, out);
    Ok(bytes)
}
