// A map drawn by number (document 02, E8): why it is refused. What that means is defined in specs/, what is shown of it is in
// proofs/Theorems.antt.
#![tactic(auto)]

ghost use Rattle.std.specs.Prelude.{◌≡◌};
ghost use Rattle.theory_draw.specs.declared.DrawRefusal.TheVariants.{Refused};
ghost use Rattle.theory_draw.specs.Drawing.{draw_refusal_number};

use mesh::Refusal;

// Why a map isn't drawn: a refusal, 1, 2 or 10; or 24, more than 1,000 draws, or a draw where no place is allowed.
#[derive(Clone, Copy)]
pub enum DrawRefusal {
    Refused(Refusal),
    BadDraws,
}

impl From<Refusal> for DrawRefusal {
    ghost from_gives = { λ why e. e ≡ Refused why };

    fn from(why: Refusal) -> DrawRefusal {
        DrawRefusal::Refused(why)
    }
}

impl From<DrawRefusal> for u32 {
    ghost from_gives = { λ e n. n ≡ draw_refusal_number e };

    fn from(e: DrawRefusal) -> u32 {
        match e {
            DrawRefusal::Refused(why) => why.into(),
            DrawRefusal::BadDraws => 24,
        }
    }
}
