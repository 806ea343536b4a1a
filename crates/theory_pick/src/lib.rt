// The type of a pick between the two networks' routes. What it means is defined in specs/.
#![tactic(auto)]

use mesh::Network;

// The network whose route is the better one, and its number of hops.
#[derive(Clone, Copy)]
pub struct Picked {
    pub network: Network,
    pub hops: u32,
}
