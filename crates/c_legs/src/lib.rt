// "Letters to legs" and "legs to letters" for programs in C and Rust (c/pinduguil.h).
#![tactic(auto)]

ghost use Rattle.std.specs.Prelude.{◌≡◌};
ghost use Rattle.mesh.specs.Numbers.{answer_refusal};
ghost use Rattle.numbers.specs.Returned.{put_returned};
ghost use Rattle.theory_legs.specs.Converting.{converted_answer};
ghost use Rattle.c_legs.specs.Numbers.{LettersToLegsInNumbers, LegsToLettersInNumbers};

use buffers::put_first;
use numbers::refusal_of;
use theory_legs::LegRefusal;
use to_legs::letters_to_legs;
use to_letters::legs_to_letters;

// The number of bytes or letters goes first into what is lent for it, if there is room; on a refusal nothing does.
fn put_written(answer: Result<usize, LegRefusal>, written: &mut [u64])
    ensures { written.new ≡ put_returned (converted_answer answer) written.old }
{
    if let Ok(n) = answer {
        put_first(n as u64, written);
    }
}

// The refusal, or 0. One call, and a function all the same: its clause says so in the words of the definitions, for both ways.
fn converted_code(answer: Result<usize, LegRefusal>) -> u32
    ensures { result ≡ answer_refusal (converted_answer answer) }
{
    refusal_of(answer)
}

pub fn pinduguil_letters_to_legs(letters: &[u8], out: &mut [u8], written: &mut [u64]) -> u32
    ensures { LettersToLegsInNumbers letters.now out.old written.old result out.new written.new }
{
    let answer = letters_to_legs(letters, out);
    put_written(answer, written);
    converted_code(answer)
}

pub fn pinduguil_legs_to_letters(file: &[u8], out: &mut [u8], written: &mut [u64]) -> u32
    ensures { LegsToLettersInNumbers file.now out.old written.old result out.new written.new }
{
    let answer = legs_to_letters(file, out);
    put_written(answer, written);
    converted_code(answer)
}
