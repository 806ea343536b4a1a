// "Draw a map by number" for programs in C and Rust (c/pinduguil.h).
#![tactic(auto)]

ghost use Rattle.std.specs.Prelude.{◌≡◌};
ghost use Rattle.mesh.specs.Numbers.{answer_code};
ghost use Rattle.theory_draw.specs.Drawing.{drawn_answer};
ghost use Rattle.c_drawing.specs.Numbers.{DrawsInNumbers};

use drawing::draw;
use numbers::answer_code;
use theory_draw::DrawRefusal;

// The number of distinct faults, or 65,536 plus the refusal. One call, and public: its clause says what the number is.
#[tactic(auto, unfolding(mesh::specs::Numbers::answer_code, mesh::specs::Numbers::refusal_code))]
pub fn drawn_code(answer: Result<u32, DrawRefusal>) -> u32
    ensures { result ≡ answer_code (drawn_answer answer) }
{
    answer_code(answer)
}

pub fn pinduguil_draw(columns: u32, rows: u32, seed: u32, draws: u32, out: &mut [u8]) -> u32
    ensures { DrawsInNumbers columns rows seed draws out.old result out.new }
{
    drawn_code(draw(columns, rows, seed, draws, out))
}
