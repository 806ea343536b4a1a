// A sheet being read: where it stands, and what its next bytes say.
#![tactic(auto)]

ghost use Rattle.std.specs.Prelude.{◌≡◌, List, ℕ, [], ◌∷◌, ◌++◌, ◌≤◌, ◌<◌, ◌==◌, length, take, position};
ghost use Rattle.sheet_bytes.specs.Reading.{next_line, Begins};
ghost use Rattle.sheet_bytes.specs.Next.{ReadsByte, ReadsNext};

use sheet_state::Sheet;
use sheet_words::{Command, read_line};
use std::marker::Model;
use theory_sheet::Phase;

// The bytes of a line that are held: at most 20, with zeros after them. In a clause they are a list.
#[derive(Clone, Copy)]
pub struct Held {
    bytes: [u8; 20],
    len: usize,
}

impl Model for Held {
    ghost use Rattle.std.specs.Prelude.{◌≡◌, List, ℕ, ◌≤◌, length, take};
    ghost use Rattle.std.proofs.Common.{sym};
    ghost use Rattle.sheet_bytes.specs.Holding.{padded};

    ghost Value = { List ℕ };

    ghost view = { λ h. take h.len h.bytes };

    ghost invariant = { λ h. (h.len ≤ 20) × (length (take h.len h.bytes) ≡ h.len) × (h.bytes ≡ padded (take h.len h.bytes)) };

    ghost inverse = { λ xs. record { bytes = padded xs; len = length xs } };

    ghost inverse_ok = { λ h a i. record { bytes = sym a.2 i; len = a.1 i } };
}

impl Held {
    fn none() -> Held
        ensures { result ≡ [] }
    {
        Held {
            bytes: [0; 20],
            len: 0,
        }
    }

    pub fn bytes(&self) -> &[u8]
        ensures { result.now ≡ self.now }
    {
        &self.bytes[..self.len]
    }

    pub fn len(&self) -> usize
        ensures { result ≡ length self.now }
    {
        self.len
    }

    fn push(&mut self, x: u8)
        requires { length self.old < 20 }
        ensures { self.new ≡ self.old ++ (x ∷ []) }
    {
        self.bytes[self.len] = x;
        self.len += 1;
    }
}

// A sheet being read: what the lines before this one have said, its number, what is held of it, and whether the run is over: a state, in which
// the others are still there.
#[derive(Clone, Copy)]
pub struct Reader {
    pub sheet: Sheet,
    pub number: u32,
    pub held: Held,
    pub over: bool,
}

// What was read: a line, or a byte of one that is held. An Option of an Option would be no plainer.
#[derive(Clone, Copy)]
pub enum Read {
    Line(Option<Command>),
    Part,
}

// What was read, and how many bytes it took.
#[derive(Clone, Copy)]
pub struct Next {
    pub read: Read,
    pub taken: usize,
}

// A sheet of which nothing is read yet.
pub fn begin() -> Reader
    ensures { Begins result }
{
    Reader {
        sheet: Sheet {
            phase: Phase::Start,
            columns: 0,
            rows: 0,
        },
        number: 1,
        held: Held::none(),
        over: false,
    }
}

impl Reader {
    // After a line.
    pub fn next_line(&mut self, sheet: Sheet, over: bool)
        requires { self.old.number ≤ 65536 }
        ensures { self.new ≡ next_line self.old.number sheet over }
    {
        self.sheet = sheet;
        self.number += 1;
        self.held = Held::none();
        self.over = over;
    }
}

// Where the newline of a whole line stands. It is looked for among 21 bytes: no well-formed line has more than 20 before its newline.
fn find_newline(bytes: &[u8]) -> Option<usize>
    ensures { result ≡ position (λ x. x == 10) (take 21 bytes.now) }
{
    bytes.iter().take(21).position(|x| *x == b'\n')
}

// A byte more of the line that is held. A line of 20 bytes that goes on is malformed, whatever follows.
fn read_byte(number: u32, byte: u8, held: &mut Held) -> Read
    ensures { ReadsByte number byte held.old result held.new }
{
    if byte == b'\n' {
        Read::Line(read_line(number, held.bytes()))
    } else if 20 <= held.len() {
        Read::Line(None)
    } else {
        held.push(byte);
        Read::Part
    }
}

// The next line, of which some bytes may be held, or a byte more of it.
pub fn read_next(number: u32, bytes: &[u8], held: &mut Held) -> Next
    requires { 1 ≤ length bytes.now }
    ensures { ReadsNext number bytes.now held.old result held.new }
{
    if held.len() == 0 {
        if let Some(end) = find_newline(bytes) {
            return Next {
                read: Read::Line(read_line(number, &bytes[..end])),
                taken: end + 1,
            };
        }
    }
    Next {
        read: read_byte(number, bytes[0], held),
        taken: 1,
    }
}
