// The types of the routing exercise, and their numbers. What they mean, and every rule of document 01, is defined in specs/.
#![tactic(auto)]

ghost use Rattle.std.specs.Prelude.{◌≡◌};
ghost use Rattle.mesh.specs.declared.NotPassed.TheVariants.{Refused};
ghost use Rattle.mesh.specs.Headings.{heading_number};
ghost use Rattle.mesh.specs.Numbers.{number, mistake_number, network_number, network_read};

// A row number and a column number. They are kept apart, so that neither can be handed over for the other.
#[derive(Clone, Copy, PartialEq, Eq, PartialOrd, Ord)]
pub struct Row(pub u32);

#[derive(Clone, Copy, PartialEq, Eq, PartialOrd, Ord)]
pub struct Column(pub u32);

#[derive(Clone, Copy, PartialEq, Eq)]
pub struct Place {
    pub row: Row,
    pub column: Column,
}

// The direction of a hop, with its number: east raises the column, north raises the row.
#[derive(Clone, Copy, PartialEq, Eq)]
pub enum Heading {
    East = 1,
    North,
    South,
    West,
}

// Which turns are forbidden in odd columns, and which in even ones: on the second network the two are exchanged. With its number.
#[derive(Clone, Copy, PartialEq, Eq)]
pub enum Network {
    First = 1,
    Second,
}

// A packet's record. At its source a packet has no last hop.
#[derive(Clone, Copy)]
pub struct Packet {
    pub place: Place,
    pub last: Option<Heading>,
    pub destination: Place,
}

// The refusals, with the papers' numbers.
#[derive(Clone, Copy, PartialEq, Eq)]
pub enum Refusal {
    Columns = 1,
    Rows,
    MapLength,
    MapByte,
    FaultPlace,
    OffMesh,
    InBlock,
    BlockNearInRow,
    Unlawful,
    Room,
}

// A rule of document 001 on turns: rule 1 is about EN and NW, rule 2 about ES and SW.
#[derive(Clone, Copy, PartialEq, Eq)]
pub enum TurnRule {
    Rule1,
    Rule2,
}

// What is wrong with a hand-in, in the order in which it is tested, with the papers' numbers.
#[derive(Clone, Copy, PartialEq, Eq)]
pub enum Mistake {
    NoLetter = 11,
    LeavesMesh = 12,
    Reverses = 13,
    BreaksRule1 = 14,
    BreaksRule2 = 17,
    EntersBlock = 15,
    NotArrived = 16,
}

// What marking the blocks answers: their number, and how many rounds the marking took.
#[derive(Clone, Copy)]
pub struct Marked {
    pub blocks: u32,
    pub rounds: u32,
}

// Why a hand-in isn't passed: it is refused; or what is wrong first, and the index of that letter.
#[derive(Clone, Copy)]
pub enum NotPassed {
    Refused(Refusal),
    Wrong(Mistake, usize),
}

// A packet's record after moving on; and the hop that was made, or none where the packet had arrived, or why it is refused.
#[derive(Clone, Copy)]
pub struct Stepped {
    pub packet: Packet,
    pub moved: Result<Option<Heading>, Refusal>,
}

// A number that stands for nothing of the kind asked for.
#[derive(Clone, Copy)]
pub struct NoNumber(pub u32);

impl From<Heading> for u32 {
    ghost from_gives = { λ h n. n ≡ heading_number h };

    fn from(h: Heading) -> u32 {
        h as u32
    }
}

impl From<Network> for u32 {
    ghost from_gives = { λ network n. n ≡ network_number network };

    fn from(network: Network) -> u32 {
        network as u32
    }
}

impl From<Refusal> for u32 {
    ghost from_gives = { λ why n. n ≡ number why };

    fn from(why: Refusal) -> u32 {
        why as u32
    }
}

impl From<Mistake> for u32 {
    ghost from_gives = { λ mistake n. n ≡ mistake_number mistake };

    fn from(mistake: Mistake) -> u32 {
        mistake as u32
    }
}

impl TryFrom<u32> for Network {
    type Error = NoNumber;

    ghost try_from_gives = { λ n r. r ≡ network_read n };

    #[tactic(auto, unfolding(crate::specs::Numbers::network_read, crate::specs::Numbers::is_network, crate::specs::Numbers::network_of))]
    fn try_from(n: u32) -> Result<Self, NoNumber> {
        match n {
            1 => Ok(Network::First),
            2 => Ok(Network::Second),
            _ => Err(NoNumber(n)),
        }
    }
}

impl From<Refusal> for NotPassed {
    ghost from_gives = { λ why e. e ≡ Refused why };

    fn from(why: Refusal) -> NotPassed {
        NotPassed::Refused(why)
    }
}
