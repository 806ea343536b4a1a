// The turn test.
#![tactic(auto)]

ghost use Rattle.std.specs.Prelude.{◌≡◌, ◌<◌};
ghost use Rattle.mesh.specs.Parity.{turns_west};
ghost use Rattle.mesh.specs.Turns.{turn_breaks, hop_breaks, reverses, turns_back};
ghost use Rattle.turns.specs.Arithmetic.{rule_of, broken_rule, quarter_turns};

use headings::code;
use mesh::{Column, Heading, Network, TurnRule};
use parity::remainder;

// Quarter turns to the left from the hop before to the hop after, by their codes (0 E, 1 N, 2 W, 3 S): 0 straight on, 1 left, 2 back, 3 right.
fn quarter_turns(before: u32, after: u32) -> u32
    requires { (before < 4) × (after < 4) }
    ensures { result ≡ quarter_turns before after }
{
    (after + 4 - before) % 4
}

// The turn test by arithmetic: from the codes of the two hops and the column's remainder by 2, the rule that the turn breaks, or 0.
//
// EN and NW, of rule 1, turn left; ES and SW, of rule 2, turn right. So `rule` is 1 for one quarter turn, 2 for three, and 0 for none or two.
// Even columns forbid the two turns from E, odd ones the two to W, and W turned about is E. So `from` is the hop before in an even column, in
// an odd one the hop after turned about (before + turn + 2), and the turn is forbidden if that is E. The code of E is 0, and 1 / (1 + from),
// in whole numbers, is 1 for 0 and 0 for all others.
fn broken_rule(before: u32, after: u32, remainder: u32) -> u32
    requires { (before < 4) × (after < 4) × (remainder < 2) }
    ensures { result ≡ broken_rule before after remainder }
{
    let turn = quarter_turns(before, after);
    let rule = turn % 2 + turn / 3;
    let from = (before + remainder * (turn + 2)) % 4;
    rule * (1 / (1 + from))
}

// The rule of that number; 0 is neither.
#[tactic(auto, unfolding(crate::specs::Arithmetic::rule_of))]
fn rule_of(n: u32) -> Option<TurnRule>
    ensures { result ≡ rule_of n }
{
    match n {
        0 => None,
        1 => Some(TurnRule::Rule1),
        _ => Some(TurnRule::Rule2),
    }
}

// The rule that the turn breaks in this column.
fn turn_breaks(network: Network, before: Heading, after: Heading, c: Column) -> Option<TurnRule>
    ensures { result ≡ turn_breaks (turns_west network) c.0 before after }
{
    rule_of(broken_rule(code(before), code(after), remainder(network, c)))
}

// Whether the second hop goes back where the first came from.
fn reverses(before: Heading, after: Heading) -> bool
    ensures { result ≡ reverses before after }
{
    quarter_turns(code(before), code(after)) == 2
}

// Whether the hop reverses the last one.
#[tactic(auto, unfolding(mesh::specs::Turns::turns_back))]
pub fn turns_back(l: Option<Heading>, h: Heading) -> bool
    ensures { result ≡ turns_back l h }
{
    l.is_some_and(|g| reverses(g, h))
}

// The rule that the hop breaks after the last one.
#[tactic(auto, unfolding(mesh::specs::Turns::hop_breaks))]
pub fn hop_breaks(network: Network, l: Option<Heading>, h: Heading, c: Column) -> Option<TurnRule>
    ensures { result ≡ hop_breaks (turns_west network) c.0 l h }
{
    turn_breaks(network, l?, h, c)
}
