// Places by their numbers, and what an operation answers as one number.
#![tactic(auto)]

ghost use Rattle.std.specs.Prelude.{◌≡◌, ◌<◌, ℕ, MatchResult};
ghost use Rattle.std.specs.Result.{IfErr};
ghost use Rattle.mesh.specs.Mesh.{place};
ghost use Rattle.mesh.specs.Numbers.{is_network, network_of};
ghost use Rattle.mesh.specs.Moving.{moved_told, told_code};
ghost use Rattle.mesh.specs.Judging.{judged_verdict, verdict_code, verdict_index};
ghost use Rattle.numbers.specs.Coded.{Coded};

use headings::letter;
use mesh::{Column, Heading, Network, NotPassed, Place, Refusal, Row};

pub fn place_of(row: u32, column: u32) -> Place
    ensures { result ≡ place row column }
{
    Place {
        row: Row(row),
        column: Column(column),
    }
}

// Whether it is the number of a network.
#[tactic(auto, unfolding(mesh::specs::Numbers::network_read, mesh::specs::Numbers::is_network))]
pub fn is_network(n: u32) -> bool
    ensures { result ≡ is_network n }
{
    Network::try_from(n).is_ok()
}

// The network of that number: 1 the first, every other the second. It answers for each number, as it always has; the exports for C ask `try_from`.
#[tactic(auto, unfolding(mesh::specs::Numbers::network_read, mesh::specs::Numbers::network_of, mesh::specs::Numbers::is_network))]
pub fn network_of(n: u32) -> Network
    ensures { result ≡ network_of n }
{
    Network::try_from(n).unwrap_or(Network::Second)
}

// What is answered where numbers are no request.
pub const NO_REQUEST: u32 = 65536;

// What is returned, or 65,536 plus the number of the refusal.
#[tactic(auto, unfolding(mesh::specs::Numbers::refusal_code))]
pub fn answer_code<E: Into<u32>>(answer: Result<u32, E>) -> u32
    ensures { MatchResult answer (λ n. result ≡ n) (λ why. Coded (E.converts why) result) }
{
    match answer {
        Ok(n) => n,
        Err(why) => 65536u32.wrapping_add(why.into()),
    }
}

// The number of the refusal, or 0.
pub fn refusal_of<T: Drop, E: Into<u32>>(answer: Result<T, E>) -> u32
    ensures { MatchResult answer (λ _. result ≡ 0) (λ why. E.converts why result) }
{
    match answer {
        Ok(_) => 0,
        Err(why) => why.into(),
    }
}

// Move on: the letter, 0 arrived, or 65,536 plus the refusal.
pub fn moved_code(answer: Result<Option<Heading>, Refusal>) -> u32
    ensures { result ≡ told_code (moved_told answer) }
{
    answer_code(answer.map(|hop| hop.map_or(0, |h| u32::from(letter(h)))))
}

// Judge a hand-in: 0 passed, or the number of what is wrong.
pub fn judged_code(answer: Result<usize, NotPassed>) -> u32
    ensures { result ≡ verdict_code (judged_verdict answer) }
{
    match answer {
        Ok(_) => 0,
        Err(NotPassed::Wrong(mistake, _)) => mistake.into(),
        Err(NotPassed::Refused(why)) => why.into(),
    }
}

// And the length, or the index of what is wrong.
pub fn judged_index(answer: Result<usize, NotPassed>) -> u64
    ensures { result ≡ verdict_index (judged_verdict answer) }
{
    match answer {
        Ok(n) => n as u64,
        Err(NotPassed::Wrong(_, i)) => i as u64,
        Err(NotPassed::Refused(_)) => 0,
    }
}
