// What a line of a sheet changes, and what it prints before any answer to a send.
#![tactic(auto)]

ghost use Rattle.std.specs.Prelude.{◌≡◌, ◌*◌, ◌≤◌, length};
ghost use Rattle.mesh.specs.Mesh.{mesh};
ghost use Rattle.nodes.specs.Sized.{Sized};
ghost use Rattle.theory_sheet.specs.Sheet.{mesh_line, fault_line, opening, change};
ghost use Rattle.theory_sheet.specs.declared.Phase.TheVariants.{Start, Faults};
ghost use Rattle.sheet_state.specs.Keeping.{map_of, state_of, Ready, unchanged, Changes};

use blocks::count_blocks;
use maps::{has_misplaced, is_bad_size};
use mesh::{Place, Refusal};
use nodes::Nodes;
use rounds::settle;
use sheet_words::Command;
use theory_sheet::Phase;

// What the lines so far have said, but for the map, which is lent.
#[derive(Clone, Copy)]
pub struct Sheet {
    pub phase: Phase,
    pub columns: u32,
    pub rows: u32,
}

// What a line prints: that it is bad, the number of a refusal, the number of blocks, or nothing.
#[derive(Clone, Copy)]
pub enum Says {
    BadLine,
    Refusal(Refusal),
    Blocks(u32),
    Nothing,
}

// What has been said after a line, and what it prints.
#[derive(Clone, Copy)]
pub struct Change {
    pub sheet: Sheet,
    pub says: Says,
}

impl Sheet {
    // The nodes of its mesh, which stand in the first places of the map.
    pub fn nodes<'a>(self, map: &'a [u8]) -> Nodes<'a>
        requires { Sized self.columns self.rows (map_of self map.now) × (self.columns * self.rows ≤ length map.now) }
        ensures { result ≡ mesh self.columns self.rows (map_of self map.now) }
    {
        Nodes {
            columns: self.columns,
            rows: self.rows,
            map: &map[..(self.columns * self.rows) as usize],
        }
    }

    // The sheet as it is, after a line that prints this.
    fn says(self, says: Says) -> Change
        ensures { result ≡ unchanged self says }
    {
        Change { sheet: self, says }
    }

    // The first line: its sizes are judged at once.
    fn first_line(self, columns: u32, rows: u32, map: &mut [u8]) -> Change
        requires { Ready self map.old × (self.phase ≡ Start) }
        ensures { Changes (λ n. mesh_line self.phase n (state_of self map.old) columns rows) result map.new }
    {
        if is_bad_size(columns) {
            return self.says(Says::Refusal(Refusal::Columns));
        }
        if is_bad_size(rows) {
            return self.says(Says::Refusal(Refusal::Rows));
        }
        map[..(columns * rows) as usize].fill(0);
        Change {
            sheet: Sheet {
                phase: Phase::Faults,
                columns,
                rows,
            },
            says: Says::Nothing,
        }
    }

    // mesh COLUMNS ROWS
    fn mesh_line(self, columns: u32, rows: u32, map: &mut [u8]) -> Change
        requires { Ready self map.old }
        ensures { Changes (λ n. mesh_line self.phase n (state_of self map.old) columns rows) result map.new }
    {
        match self.phase {
            Phase::Start => self.first_line(columns, rows, map),
            Phase::Faults | Phase::Sends => self.says(Says::BadLine),
        }
    }

    // A fault after the mesh line.
    fn set_fault(self, p: Place, map: &mut [u8]) -> Change
        requires { Ready self map.old × (self.phase ≡ Faults) }
        ensures { Changes (λ n. fault_line self.phase n (state_of self map.old) p) result map.new }
    {
        if p.row.0 < self.rows && p.column.0 < self.columns {
            map[(p.row.0 * self.columns + p.column.0) as usize] = 1;
            self.says(Says::Nothing)
        } else {
            self.says(Says::BadLine)
        }
    }

    // fault ROW COLUMN
    fn fault_line(self, p: Place, map: &mut [u8]) -> Change
        requires { Ready self map.old }
        ensures { Changes (λ n. fault_line self.phase n (state_of self map.old) p) result map.new }
    {
        match self.phase {
            Phase::Faults => self.set_fault(p, map),
            Phase::Start | Phase::Sends => self.says(Says::BadLine),
        }
    }

    // blocks B, or no 5: the map is marked here, once for the whole sheet.
    fn mark_faults(self, map: &mut [u8]) -> Change
        requires { Ready self map.old × (self.phase ≡ Faults) }
        ensures { Changes (λ n. opening self.phase n (state_of self map.old)) result map.new }
    {
        if has_misplaced(&self.nodes(map)) {
            return self.says(Says::Refusal(Refusal::FaultPlace));
        }
        let n = (self.columns * self.rows) as usize;
        settle(self.columns, self.rows, &mut map[..n]);
        let blocks = count_blocks(&self.nodes(map));
        Change {
            sheet: Sheet {
                phase: Phase::Sends,
                ..self
            },
            says: Says::Blocks(blocks),
        }
    }

    // Before the answer to a send, and at the end of a sheet.
    pub fn open_sends(self, map: &mut [u8]) -> Change
        requires { Ready self map.old }
        ensures { Changes (λ n. opening self.phase n (state_of self map.old)) result map.new }
    {
        match self.phase {
            Phase::Start => self.says(Says::BadLine),
            Phase::Faults => self.mark_faults(map),
            Phase::Sends => self.says(Says::Nothing),
        }
    }

    // A line, by what it says.
    pub fn take_line(self, command: Option<Command>, map: &mut [u8]) -> Change
        requires { Ready self map.old }
        ensures { Changes (λ n. change n (state_of self map.old) command) result map.new }
    {
        match command {
            Some(Command::Mesh(columns, rows)) => self.mesh_line(columns, rows, map),
            Some(Command::Fault(p)) => self.fault_line(p, map),
            Some(Command::Send(_, _)) => self.open_sends(map),
            None => self.says(Says::BadLine),
        }
    }
}
