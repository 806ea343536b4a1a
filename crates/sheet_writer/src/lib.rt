// Answers to the bytes of a sheet, written as they come.
#![tactic(auto)]

ghost use Rattle.std.specs.Prelude.{◌≡◌, ◌≤◌, length, is_ok, IfOk, IfErr};
ghost use Rattle.theory_sheet.specs.Reader.{feed_all};
ghost use Rattle.sheet_lines.specs.Answers.{answer_room};
ghost use Rattle.sheet_bytes.specs.Reading.{reader_of, Reading};
ghost use Rattle.sheet_writer.specs.Writing.{Answers, Writes};

use sheet_bytes::Reader;
use sheet_reader::{Taken, take_bytes};
use std::io::Write;

// That not all bytes could be written.
#[derive(Clone, Copy)]
pub struct Unwritten;

// Writes all the bytes, or stops at the first write that takes none or fails. For no bytes nothing is called.
pub fn write_whole<W: Write>(to: &mut W, bytes: &[u8]) -> Result<(), Unwritten>
    ensures { Writes (W.contents to.old) (W.contents to.new) bytes.now (is_ok result) }
{
    let mut rest = bytes;
    while !rest.is_empty() {
        match to.write(rest) {
            Ok(n) if n > 0 => rest = &rest[n..],
            _ => return Err(Unwritten),
        }
    }
    Ok(())
}

// Answers that could not be written, and the reader after them.
#[derive(Clone, Copy)]
pub struct Stopped {
    pub reader: Reader,
}

// Answers bytes of the sheet, as many at a time as there is room for, and writes the answers; and the reader after them.
pub fn answer_some<W: Write>(
    to: &mut W,
    reader: Reader,
    bytes: &[u8],
    map: &mut [u8],
    out: &mut [u8],
) -> Result<Reader, Stopped>
    requires { Reading reader map.old × (answer_room ≤ length out.old) }
    ensures answers { IfOk result (λ r. Answers (reader_of reader map.old) bytes.now r map.new) }
    ensures stopped { IfErr result (λ s. Reading s.reader map.new) }
    ensures writes { Writes (W.contents to.old) (W.contents to.new) (feed_all (reader_of reader map.old) bytes.now).printed (is_ok result) }
{
    let mut reader = reader;
    let mut used = 0;
    // By an index: how many bytes a step uses is known only after it.
    while used < bytes.len() && !reader.over {
        let Taken {
            reader: next,
            at,
            taken,
        } = take_bytes(reader, &bytes[used..], map, out);
        if write_whole(to, &out[..at]).is_err() {
            return Err(Stopped { reader: next });
        }
        reader = next;
        used += taken;
    }
    Ok(reader)
}
