// "Blocks from rectangles" for programs in C and Rust (c/pinduguil.h).
#![tactic(auto)]

ghost use Rattle.std.specs.Prelude.{◌≡◌};
ghost use Rattle.mesh.specs.Numbers.{answer_code};
ghost use Rattle.theory_boxes.specs.Boxing.{boxed_answer};
ghost use Rattle.c_boxing.specs.Numbers.{BoxesInNumbers};

use boxing::box_blocks;
use mesh::Refusal;
use numbers::answer_code;

// The number of boxes, or 65,536 plus the refusal. One call, and public: its clause says what the number is.
pub fn boxed_code(answer: Result<u32, Refusal>) -> u32
    ensures { result ≡ answer_code (boxed_answer answer) }
{
    answer_code(answer)
}

pub fn pinduguil_box(columns: u32, rows: u32, map: &[u8], list: &mut [u32]) -> u32
    ensures { BoxesInNumbers columns rows map.now list.old result list.new }
{
    boxed_code(box_blocks(columns, rows, map, list))
}
