// A table of sends in one call (document 02, E2): its types. What they mean is defined in specs/, what is shown of it is in
// proofs/Theorems.antt.
#![tactic(auto)]

ghost use Rattle.std.specs.Prelude.{◌≡◌};
ghost use Rattle.theory_batch.specs.declared.BatchRefusal.TheVariants.{Map};
ghost use Rattle.theory_batch.specs.Batch.{batch_refusal_number};

use mesh::{Place, Refusal};

#[derive(Clone, Copy)]
pub struct Send {
    pub source: Place,
    pub destination: Place,
}

// Why a table is refused: a refusal of the map; or 18, the list isn't whole sends or the answer list has fewer entries than sends.
#[derive(Clone, Copy)]
pub enum BatchRefusal {
    Map(Refusal),
    NotSends,
}

impl From<Refusal> for BatchRefusal {
    ghost from_gives = { λ why e. e ≡ Map why };

    fn from(why: Refusal) -> BatchRefusal {
        BatchRefusal::Map(why)
    }
}

impl From<BatchRefusal> for u32 {
    ghost from_gives = { λ e n. n ≡ batch_refusal_number e };

    fn from(e: BatchRefusal) -> u32 {
        match e {
            BatchRefusal::Map(why) => why.into(),
            BatchRefusal::NotSends => 18,
        }
    }
}
