// The numbers of a file of legs, groups of seven bits: written and read.
#![tactic(auto)]

ghost use Rattle.std.specs.Prelude.{◌≡◌, ◌≤◌, ◌<◌, ◌+◌, length, get_or, IfOk, IfErr};
ghost use Rattle.theory_legs.specs.declared.LegRefusal.TheVariants.{CutShort};
ghost use Rattle.buffers.specs.Over.{Puts};
ghost use Rattle.theory_legs.specs.Groups.{number_bytes};
ghost use Rattle.groups.specs.Reading.{number_told, groups_from, number_from, Joined, Bounded};

use buffers::put_byte;
use theory_legs::LegRefusal;

// Writes a number's groups from index at on, and answers the index after them.
pub fn put_number(out: &mut [u8], at: usize, n: u32) -> usize
    requires { (n ≤ 65535) × (at + length (number_bytes n) ≤ length out.old) }
    ensures { Puts out.old at (number_bytes n) result out.new }
{
    if n < 128 {
        return put_byte(out, at, n as u8);
    }
    let second = put_byte(out, at, (128 + n % 128) as u8);
    if n < 16384 {
        return put_byte(out, second, (n / 128) as u8);
    }
    let third = put_byte(out, second, (128 + n / 128 % 128) as u8);
    put_byte(out, third, (n / 128 / 128) as u8)
}

// How many groups a number has.
pub fn number_size(n: usize) -> usize
    ensures { result ≡ length (number_bytes n) }
{
    if n < 128 {
        1
    } else if n < 16384 {
        2
    } else {
        3
    }
}

// A group with its top bit set, before groups that come to a number; these are needless if it is 0.
fn above(g: u32, more: (u32, usize)) -> Result<(u32, usize), LegRefusal>
    requires { more.0 < 16384 }
    ensures { Joined g more result }
{
    let (n, next) = more;
    if n == 0 {
        Err(LegRefusal::BadNumber)
    } else {
        Ok((g % 128 + n * 128, next))
    }
}

// A number that is not too large.
fn not_large(number: (u32, usize)) -> Result<(u32, usize), LegRefusal>
    ensures { Bounded number result }
{
    if 65535 < number.0 {
        Err(LegRefusal::BadNumber)
    } else {
        Ok(number)
    }
}

// The group at an index of a file.
fn group_at(file: &[u8], at: usize) -> Result<u32, LegRefusal>
    ensures read { IfOk result (λ g. (at < length file.now) × (g ≡ get_or file.now at 0)) }
    ensures cut { IfErr result (λ why. (length file.now ≤ at) × (why ≡ CutShort)) }
{
    if at < file.len() {
        Ok(u32::from(file[at]))
    } else {
        Err(LegRefusal::CutShort)
    }
}

// A number of k groups at most, from index at of a file on, with the index after it; or why there is none: it is cut short, or too large or with
// a needless group.
fn read_groups(k: u32, file: &[u8], at: usize) -> Result<(u32, usize), LegRefusal>
    requires { k ≤ 2 }
    ensures { number_told file.now result ≡ groups_from k file.now at }
{
    if k == 0 {
        return Err(LegRefusal::BadNumber);
    }
    let group = group_at(file, at)?;
    if group < 128 {
        return Ok((group, at + 1));
    }
    above(group, read_groups(k - 1, file, at + 1)?)
}

// The number from index at of a file on, with the index after it. Most have one group.
pub fn read_number(file: &[u8], at: usize) -> Result<(u32, usize), LegRefusal>
    ensures { number_told file.now result ≡ number_from file.now at }
{
    let first = group_at(file, at)?;
    if first < 128 {
        return Ok((first, at + 1));
    }
    not_large(above(first, read_groups(2, file, at + 1)?)?)
}
