// A route as straight legs (document 02, E3): why letters or a file of legs are refused. What that means, and the file of legs, is defined in
// specs/, what is shown of it is in proofs/Theorems.antt.
#![tactic(auto)]

ghost use Rattle.std.specs.Prelude.{◌≡◌};
ghost use Rattle.theory_legs.specs.Converting.{leg_refusal_number};

// Why letters or a file of legs are refused, with the papers' numbers.
#[derive(Clone, Copy, PartialEq, Eq)]
pub enum LegRefusal {
    Room = 10,
    NoLetter = 11,
    CutShort = 19,
    BadNumber = 20,
    SameDirection = 21,
    LeftOver = 22,
    TooLong = 23,
}

impl From<LegRefusal> for u32 {
    ghost from_gives = { λ why n. n ≡ leg_refusal_number why };

    fn from(why: LegRefusal) -> u32 {
        why as u32
    }
}
