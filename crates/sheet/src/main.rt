// The sheet program: reads a sheet from standard input and writes its answers to standard output.
#![tactic(auto)]

ghost use Rattle.std.specs.Prelude.{◌≡◌, ◌≤◌, length, is_ok, IfOk, IfSome};
ghost use Rattle.theory_sheet.specs.Sheet.{sheet};
ghost use Rattle.sheet_writer.specs.Writing.{AppendsPart, Writes};
ghost use Rattle.sheet_lines.specs.Answers.{answer_room};
ghost use Rattle.sheet_bytes.specs.Reading.{reader_of, Reading};
ghost use Rattle.sheet.specs.declared.Failed.TheVariants.{Unwritten as Unanswered};
ghost use Rattle.sheet.specs.Program.{Reads, Takes, goes_on, ReadsAll, AnswersAll, Ends, told_of, Tells, TellsOnce};

use sheet_bytes::{Reader, begin};
use sheet_reader::finish;
use sheet_writer::{Stopped, Unwritten, answer_some, write_whole};
use std::io;

// What failed.
#[derive(Clone, Copy)]
enum Failed {
    Unread,
    Unwritten,
}

impl From<Unwritten> for Failed {
    ghost from_gives = { λ _ why. why ≡ Unanswered };

    fn from(_unwritten: Unwritten) -> Failed {
        Failed::Unwritten
    }
}

impl From<Stopped> for Failed {
    ghost from_gives = { λ _ why. why ≡ Unanswered };

    fn from(_stopped: Stopped) -> Failed {
        Failed::Unwritten
    }
}

// What came of a read: how many bytes, and the reader after them.
#[derive(Clone, Copy)]
struct Read {
    came: usize,
    reader: Reader,
}

// Reads once, and answers what came.
fn read_some<R: io::Read, W: io::Write>(
    from: &mut R,
    to: &mut W,
    reader: Reader,
    chunk: &mut [u8],
    map: &mut [u8],
    out: &mut [u8],
) -> Result<Read, Failed>
    requires { Reading reader map.old × (answer_room ≤ length out.old) }
    ensures reads { IfOk result (λ x. Reads (reader_of reader map.old) x chunk.new map.new) }
    ensures takes { Takes (reader_of reader map.old) (R.remaining from.old) (R.remaining from.new) (W.contents to.old) (W.contents to.new) result (length chunk.old) chunk.new }
{
    let came = from.read(chunk).map_err(|_| Failed::Unread)?;
    let reader = answer_some(to, reader, &chunk[..came], map, out)?;
    Ok(Read { came, reader })
}

// Whether to read on: something came, and the run is not over.
#[tactic(auto, unfolding(crate::specs::Program::goes_on))]
fn reads_on(read: &Read) -> bool
    ensures { result ≡ goes_on read.now }
{
    read.came != 0 && !read.reader.over
}

// Reads and answers to the end of the input or of the run, or until a read or a write fails.
fn read_all<R: io::Read, W: io::Write>(
    from: &mut R,
    to: &mut W,
    chunk: &mut [u8],
    map: &mut [u8],
    out: &mut [u8],
) -> Result<Read, Failed>
    requires { (4096 ≤ length map.old) × (answer_room ≤ length out.old) }
    ensures reads { IfOk result (λ x. ReadsAll x map.new) }
    ensures answers { AnswersAll (R.remaining from.old) (R.remaining from.new) (W.contents to.old) (W.contents to.new) (length chunk.old) result map.new }
{
    let mut reader = begin();
    loop {
        let read = read_some(from, to, reader, chunk, map, out)?;
        if !reads_on(&read) {
            return Ok(read);
        }
        reader = read.reader;
    }
}

// The end of the sheet, once all of it is read. What failed before is still what failed, and nothing more is printed.
fn end_sheet<W: io::Write>(
    to: &mut W,
    last: Result<Read, Failed>,
    map: &mut [u8],
    out: &mut [u8],
) -> Result<(), Failed>
    requires { IfOk last (λ x. Reading x.reader map.old) × (answer_room ≤ length out.old) }
    ensures { Ends (W.contents to.old) (W.contents to.new) last map.old result }
{
    let read = last?;
    let at = finish(read.reader, map, out, 0);
    write_whole(to, &out[..at])?;
    Ok(())
}

// The whole sheet. What is written is what is defined for it, or where a read or a write failed a first part of that.
fn answer_sheet<R: io::Read, W: io::Write>(
    from: &mut R,
    to: &mut W,
    chunk: &mut [u8],
    map: &mut [u8],
    out: &mut [u8],
) -> Result<(), Failed>
    requires { (4096 ≤ length map.old) × (answer_room ≤ length out.old) }
    ensures { 1 ≤ length chunk.old → IfSome (R.remaining from.old) (λ xs. Writes (W.contents to.old) (W.contents to.new) (sheet xs) (is_ok result)) }
{
    let last = read_all(from, to, chunk, map, out);
    end_sheet(to, last, map, out)
}

// Says what failed; of which, where that fails too, a first part.
fn tell_failed<E: io::Write>(tell: &mut E, why: Failed)
    ensures { AppendsPart (E.contents tell.old) (E.contents tell.new) (told_of why) }
{
    let _ = match why {
        Failed::Unread => write_whole(tell, b"sheet: cannot read\n"),
        Failed::Unwritten => write_whole(tell, b"sheet: cannot write\n"),
    };
}

// Says what failed, if something did; and whether all went well.
fn tell_end<E: io::Write>(tell: &mut E, ended: Result<(), Failed>) -> bool
    ensures { Tells (E.contents tell.old) (E.contents tell.new) ended result }
{
    match ended {
        Ok(()) => true,
        Err(why) => {
            tell_failed(tell, why);
            false
        }
    }
}

// The whole sheet; and whether all of it was read and answered. Where a read or a write failed a message says so, and nothing more is printed.
fn run<R: io::Read, W: io::Write, E: io::Write>(
    from: &mut R,
    to: &mut W,
    tell: &mut E,
    chunk: &mut [u8],
    map: &mut [u8],
    out: &mut [u8],
) -> bool
    requires { (4096 ≤ length map.old) × (answer_room ≤ length out.old) }
    ensures writes { 1 ≤ length chunk.old → IfSome (R.remaining from.old) (λ xs. Writes (W.contents to.old) (W.contents to.new) (sheet xs) result) }
    ensures tells { TellsOnce (E.contents tell.old) (E.contents tell.new) result }
{
    let ended = answer_sheet(from, to, chunk, map, out);
    tell_end(tell, ended)
}

fn main(rt: HostRuntime) {
    let mut chunk = [0u8; 65536];
    let mut map = [0u8; 4096];
    let mut out = [0u8; 65536];
    let mut from = rt.stdin();
    let mut to = rt.stdout();
    let mut tell = rt.stderr();
    run(
        &mut from, &mut to, &mut tell, &mut chunk, &mut map, &mut out,
    );
}
