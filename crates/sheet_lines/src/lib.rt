// A line of a sheet, answered, and the end of a sheet.
#![tactic(auto)]

ghost use Rattle.std.specs.Prelude.{◌≡◌, ◌+◌, ◌≤◌, ◌<◌, length};
ghost use Rattle.mesh.specs.Mesh.{mesh};
ghost use Rattle.theory_walk.specs.Claims.{most_hops};
ghost use Rattle.buffers.specs.Over.{Puts};
ghost use Rattle.theory_sheet.specs.Sheet.{send_answer, command_step, at_end};
ghost use Rattle.sheet_state.specs.Keeping.{map_of, state_of, MarkMap, Ready, says_line, says_ends, says_number};
ghost use Rattle.sheet_lines.specs.Answers.{send_room, answer_room, Answers};

use blocks::Marks;
use mesh::{Network, Place};
use routing::route_marked;
use sheet_prints::{put_bad_line, put_blocks, put_no, put_ok};
use sheet_state::{Says, Sheet};
use sheet_words::Command;
use walk::MOST_HOPS;

// Room for all that is printed for a line.
pub const ANSWER_ROOM: usize = MOST_HOPS + 26;

// A line answered: what has been said now, the index after what is printed, and whether the run is over: a state, in which the others are still
// there.
#[derive(Clone, Copy)]
pub struct Answered {
    pub sheet: Sheet,
    pub at: usize,
    pub ends: bool,
}

// line L, no NUMBER, blocks B, or nothing.
fn tell(says: Says, number: u32, out: &mut [u8], at: usize) -> usize
    requires { (says_number says < 100000) × (number < 100000) × (at + 13 ≤ length out.old) }
    ensures { Puts out.old at (says_line number says) result out.new }
{
    match says {
        Says::BadLine => put_bad_line(out, at, number),
        Says::Refusal(why) => put_no(out, at, u32::from(why)),
        Says::Blocks(n) => put_blocks(out, at, n),
        Says::Nothing => at,
    }
}

// Whether the run is over after it.
fn ends_run(says: Says) -> bool
    ensures { result ≡ says_ends says }
{
    matches!(says, Says::BadLine | Says::Refusal(_))
}

// ok HOPS LETTERS, or no NUMBER. There is room for every route.
fn answer_send(
    sheet: Sheet,
    s: Place,
    d: Place,
    map: &[u8],
    letters: &mut [u8],
    out: &mut [u8],
    at: usize,
) -> usize
    requires { MarkMap sheet.columns sheet.rows (map_of sheet map.now) × (4096 ≤ length map.now) × (most_hops ≤ length letters.old) × (at + send_room ≤ length out.old) }
    ensures { Puts out.old at (send_answer (mesh sheet.columns sheet.rows (map_of sheet map.now)) s d) result out.new }
{
    let marks = Marks {
        nodes: sheet.nodes(map),
    };
    match route_marked(Network::First, &marks, s, d, letters) {
        Ok(n) => put_ok(out, at, &letters[..n as usize]),
        Err(why) => put_no(out, at, u32::from(why)),
    }
}

// Line `number`, by what it says.
pub fn answer_line(
    sheet: Sheet,
    number: u32,
    command: Option<Command>,
    map: &mut [u8],
    letters: &mut [u8],
    out: &mut [u8],
    at: usize,
) -> Answered
    requires { Ready sheet map.old × (number < 100000) × (most_hops ≤ length letters.old) × (at + answer_room ≤ length out.old) }
    ensures { Answers (command_step number (state_of sheet map.old) command) out.old at result map.new out.new }
{
    let change = sheet.take_line(command, map);
    let sheet = change.sheet;
    let at = tell(change.says, number, out, at);
    if ends_run(change.says) {
        return Answered {
            sheet,
            at,
            ends: true,
        };
    }
    let Some(Command::Send(s, d)) = command else {
        return Answered {
            sheet,
            at,
            ends: false,
        };
    };
    Answered {
        sheet,
        at: answer_send(sheet, s, d, map, letters, out, at),
        ends: false,
    }
}

// The end of a sheet, number being that of the line after the last.
pub fn end_sheet(sheet: Sheet, number: u32, map: &mut [u8], out: &mut [u8], at: usize) -> usize
    requires { Ready sheet map.old × (number < 100000) × (at + 13 ≤ length out.old) }
    ensures { Puts out.old at (at_end number (state_of sheet map.old)) result out.new }
{
    let change = sheet.open_sends(map);
    tell(change.says, number, out, at)
}
