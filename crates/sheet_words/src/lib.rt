// The lines of a sheet, as commands.
#![tactic(auto)]

ghost use Rattle.std.specs.Prelude.{◌≡◌, ◌+◌, ◌*◌, ◌^◌, ◌≤◌, ◌<◌, Some, IfSome, option_copied};
ghost use Rattle.sheet_words.specs.Words.{more, spaced, two, ended, sizes, fault, send_to, send, command, command_at};
ghost use Rattle.sheet_words.specs.Reading.{read_view, after, digit};

use mesh::Place;
use numbers::place_of;

// What a line says. Its numbers have one to three digits; whether they fit the mesh is not asked here.
#[derive(Clone, Copy)]
pub enum Command {
    Mesh(u32, u32),
    Fault(Place),
    Send(Place, Place),
}

// The text after a word that it begins with.
fn after<'a>(text: &'a [u8], word: &[u8]) -> Option<&'a [u8]>
    ensures { option_copied result ≡ after word.now text.now }
{
    text.strip_prefix(word)
}

// A digit, and the text after it.
#[tactic(auto, unfolding(crate::specs::Reading::digit, crate::specs::Words::is_digit))]
fn read_digit(text: &[u8]) -> Option<(u32, &[u8])>
    ensures is { read_view result ≡ digit text.now }
    ensures bound { IfSome result (λ p. p.0 < 10) }
{
    match text {
        [x @ b'0'..=b'9', rest @ ..] => Some((u32::from(*x - b'0'), rest)),
        _ => None,
    }
}

// Up to `left` digits more, after digits of value n; and the text after them.
fn read_more(text: &[u8], left: u32, n: u32) -> (u32, &[u8])
    requires { (n + 1) * 10 ^ left ≤ 1000 }
    ensures { Some (result.0, result.1.now) ≡ more left n text.now }
{
    let mut value = n;
    let mut rest = text;
    for _ in 0..left {
        let Some((digit, next)) = read_digit(rest) else {
            return (value, rest);
        };
        value = 10 * value + digit;
        rest = next;
    }
    (value, rest)
}

// A single space and a number of one to three digits; and the text after them.
fn read_number(text: &[u8]) -> Option<(u32, &[u8])>
    ensures { read_view result ≡ spaced text.now }
{
    let (first, rest) = read_digit(after(text, b" ")?)?;
    Some(read_more(rest, 2, first))
}

// Two spaced numbers, and the text after them.
#[tactic(auto, unfolding(crate::specs::Words::two, crate::specs::Words::first, crate::specs::Words::second))]
fn read_two(text: &[u8]) -> Option<((u32, u32), &[u8])>
    ensures { read_view result ≡ two text.now }
{
    let (a, rest) = read_number(text)?;
    let (b, rest) = read_number(rest)?;
    Some(((a, b), rest))
}

// Two spaced numbers with nothing after them.
#[tactic(auto, unfolding(crate::specs::Words::ended))]
fn read_last(text: &[u8]) -> Option<(u32, u32)>
    ensures { result ≡ ended (two text.now) }
{
    let (numbers, rest) = read_two(text)?;
    if rest.is_empty() { Some(numbers) } else { None }
}

// After `mesh`.
#[tactic(auto, unfolding(crate::specs::Words::sizes))]
fn read_mesh(text: &[u8]) -> Option<Command>
    ensures { result ≡ sizes (ended (two text.now)) }
{
    let (columns, rows) = read_last(text)?;
    Some(Command::Mesh(columns, rows))
}

// After `fault`.
#[tactic(auto, unfolding(crate::specs::Words::fault))]
fn read_fault(text: &[u8]) -> Option<Command>
    ensures { result ≡ fault (ended (two text.now)) }
{
    let (row, column) = read_last(text)?;
    Some(Command::Fault(place_of(row, column)))
}

// After `send`.
#[tactic(auto, unfolding(crate::specs::Words::send, crate::specs::Words::send_to))]
fn read_send(text: &[u8]) -> Option<Command>
    ensures { result ≡ send (two text.now) }
{
    let ((row, column), rest) = read_two(text)?;
    let source = place_of(row, column);
    let (row, column) = read_last(rest)?;
    Some(Command::Send(source, place_of(row, column)))
}

// What a line says, without its newline.
fn read_command(line: &[u8]) -> Option<Command>
    ensures { result ≡ command line.now }
{
    if let Some(rest) = after(line, b"mesh") {
        read_mesh(rest)
    } else if let Some(rest) = after(line, b"fault") {
        read_fault(rest)
    } else {
        read_send(after(line, b"send")?)
    }
}

// What line `number` of a sheet says, without its newline; none where it is malformed.
#[tactic(auto, unfolding(crate::specs::Words::command_at))]
pub fn read_line(number: u32, text: &[u8]) -> Option<Command>
    ensures { result ≡ command_at number text.now }
{
    if number <= 65535 {
        read_command(text)
    } else {
        None
    }
}
