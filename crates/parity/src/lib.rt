// Odd and even columns, which the second network exchanges. No other code tells them apart.
#![tactic(auto)]

ghost use Rattle.std.specs.Prelude.{◌≡◌};
ghost use Rattle.mesh.specs.Parity.{remainder, turns_west};

use mesh::{Column, Network};

// The column's remainder by 2; on the second network the other one.
pub fn remainder(network: Network, c: Column) -> u32
    ensures { result ≡ remainder network c.0 }
{
    match network {
        Network::First => c.0 % 2,
        Network::Second => 1 - c.0 % 2,
    }
}

// Whether NW and SW are permitted in this column, and EN and ES are not.
#[tactic(auto, unfolding(mesh::specs::Parity::turns_west))]
pub fn turns_west(network: Network, c: Column) -> bool
    ensures { result ≡ turns_west network c.0 }
{
    remainder(network, c) == 0
}
