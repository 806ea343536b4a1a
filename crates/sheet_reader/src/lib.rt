// A sheet, read in pieces of any size.
#![tactic(auto)]

ghost use Rattle.std.specs.Prelude.{◌≡◌, false, ◌+◌, ◌≤◌, ◌<◌, length};
ghost use Rattle.theory_walk.specs.Claims.{most_hops};
ghost use Rattle.buffers.specs.Over.{Puts};
ghost use Rattle.theory_sheet.specs.Reader.{finish};
ghost use Rattle.sheet_state.specs.Keeping.{Ready};
ghost use Rattle.sheet_lines.specs.Answers.{answer_room};
ghost use Rattle.sheet_bytes.specs.Reading.{reader_of, Reading};
ghost use Rattle.sheet_reader.specs.Taking.{Advances, can_go_on, TakesBytes};

use sheet_bytes::{Read, Reader, read_next};
use sheet_lines::{ANSWER_ROOM, answer_line, end_sheet};
use sheet_prints::put_bad_line;
use walk::MOST_HOPS;

// A reader after some bytes, the index after what is printed, and how many bytes were taken.
#[derive(Clone, Copy)]
pub struct Taken {
    pub reader: Reader,
    pub at: usize,
    pub taken: usize,
}

// What was read: a line is answered, and the next one begins.
fn answer_read(
    reader: &mut Reader,
    read: Read,
    map: &mut [u8],
    letters: &mut [u8],
    out: &mut [u8],
    at: usize,
) -> usize
    requires { Ready reader.old.sheet map.old × (reader.old.number ≤ 65536) × (reader.old.over ≡ false) × (most_hops ≤ length letters.old) × (at + answer_room ≤ length out.old) }
    ensures { Advances reader.old read map.old out.old at result reader.new map.new out.new }
{
    match read {
        Read::Line(command) => {
            let answered = answer_line(reader.sheet, reader.number, command, map, letters, out, at);
            reader.next_line(answered.sheet, answered.ends);
            answered.at
        }
        Read::Part => at,
    }
}

// Whether a further line can be answered: bytes are left, the run is not over, and there is room.
#[tactic(auto, unfolding(crate::specs::Taking::can_go_on))]
fn can_go_on(i: usize, n: usize, over: bool, at: usize, room: usize) -> bool
    ensures { result ≡ can_go_on i n over at room }
{
    i < n && !over && at <= room
}

// Bytes of a sheet in turn, until the run is over or there is no room for a further answer.
pub fn take_bytes(reader: Reader, bytes: &[u8], map: &mut [u8], out: &mut [u8]) -> Taken
    requires { Reading reader map.old × (answer_room ≤ length out.old) }
    ensures { TakesBytes (reader_of reader map.old) bytes.now out.old result map.new out.new }
{
    let room = out.len() - ANSWER_ROOM;
    let mut letters = [0; MOST_HOPS];
    let mut reader = reader;
    let mut at = 0;
    let mut taken = 0;
    // By an index: it is answered, and grows by a byte or by a whole line.
    while can_go_on(taken, bytes.len(), reader.over, at, room) {
        let next = read_next(reader.number, &bytes[taken..], &mut reader.held);
        at = answer_read(&mut reader, next.read, map, &mut letters, out, at);
        taken += next.taken;
    }
    Taken { reader, at, taken }
}

// The end of the sheet.
pub fn finish(reader: Reader, map: &mut [u8], out: &mut [u8], at: usize) -> usize
    requires { Reading reader map.old × (at + answer_room ≤ length out.old) }
    ensures { Puts out.old at (finish (reader_of reader map.old)) result out.new }
{
    if reader.over {
        at
    } else if 0 < reader.held.len() {
        put_bad_line(out, at, reader.number)
    } else {
        end_sheet(reader.sheet, reader.number, map, out, at)
    }
}
