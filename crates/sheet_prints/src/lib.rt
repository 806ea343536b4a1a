// The lines that a sheet's answers are printed as, written into a lent buffer.
// Each function answers the index after what it wrote. Numbers have at most five digits.
#![tactic(auto)]

ghost use Rattle.std.specs.Prelude.{◌≤◌, ◌<◌, ◌+◌, length};
ghost use Rattle.buffers.specs.Over.{Puts};
ghost use Rattle.sheet_prints.specs.Prints.{decimal, line, blocks_word, no_word, line_word, spaced_letters, ok_line};

use buffers::{put, put_byte};

// A number in decimal.
fn put_number(out: &mut [u8], at: usize, n: u32) -> usize
    requires { (n < 100000) × (at + 5 ≤ length out.old) }
    ensures { Puts out.old at (decimal n) result out.new }
{
    let last = b'0' + (n % 10) as u8;
    if n < 10 {
        return put_byte(out, at, last);
    }
    let end = put_number(out, at, n / 10);
    put_byte(out, end, last)
}

// A word with its space, a number, a newline.
fn put_line(out: &mut [u8], at: usize, word: &[u8], n: u32) -> usize
    requires { (n < 100000) × (at + length word.now + 6 ≤ length out.old) }
    ensures { Puts out.old at (line word.now n) result out.new }
{
    let number = put(out, at, word);
    let end = put_number(out, number, n);
    put_byte(out, end, b'\n')
}

// blocks B
pub fn put_blocks(out: &mut [u8], at: usize, n: u32) -> usize
    requires { (n < 100000) × (at + 13 ≤ length out.old) }
    ensures { Puts out.old at (line blocks_word n) result out.new }
{
    put_line(out, at, b"blocks ", n)
}

// no NUMBER
pub fn put_no(out: &mut [u8], at: usize, n: u32) -> usize
    requires { (n < 100000) × (at + 9 ≤ length out.old) }
    ensures { Puts out.old at (line no_word n) result out.new }
{
    put_line(out, at, b"no ", n)
}

// line L
pub fn put_bad_line(out: &mut [u8], at: usize, n: u32) -> usize
    requires { (n < 100000) × (at + 11 ≤ length out.old) }
    ensures { Puts out.old at (line line_word n) result out.new }
{
    put_line(out, at, b"line ", n)
}

// The letters after a space; with 0 hops nothing.
fn put_letters(out: &mut [u8], at: usize, letters: &[u8]) -> usize
    requires { at + length letters.now + 1 ≤ length out.old }
    ensures { Puts out.old at (spaced_letters letters.now) result out.new }
{
    if letters.is_empty() {
        return at;
    }
    let first = put_byte(out, at, b' ');
    put(out, first, letters)
}

// ok HOPS LETTERS
pub fn put_ok(out: &mut [u8], at: usize, letters: &[u8]) -> usize
    requires { (length letters.now < 100000) × (at + length letters.now + 10 ≤ length out.old) }
    ensures { Puts out.old at (ok_line letters.now) result out.new }
{
    let hops = put(out, at, b"ok ");
    let space = put_number(out, hops, letters.len() as u32);
    let after = put_letters(out, space, letters);
    put_byte(out, after, b'\n')
}
