// The blocks of a marking: their number, and whether one is near.
#![tactic(auto)]

ghost use Rattle.std.specs.Prelude.{◌≡◌, ◌<◌, ◌*◌, ◌/◌, ◌%◌, length};
ghost use Rattle.mesh.specs.Nodes.{bad};
ghost use Rattle.mesh.specs.Blocks.{corner, blocks};
ghost use Rattle.mesh.specs.Requests.{block_near_in_row};
ghost use Rattle.nodes.specs.Sized.{OnMesh};

use mesh::{Column, Heading, Place, Row};
use nodes::Nodes;
use std::marker::Model;

// A marking: nodes of which the bad ones lie in blocks. In a clause it is a `Mesh`.
#[derive(Drop)]
pub struct Marks<'a> {
    pub nodes: Nodes<'a>,
}

impl<'a> Model for Marks<'a> {
    ghost use Rattle.mesh.specs.Mesh.{Mesh};
    ghost use Rattle.blocks.specs.Marking.{Marking};

    ghost Value = { Mesh };

    ghost view = { λ m. m.nodes };

    ghost invariant = { λ m. Marking m.nodes };
}

// Whether a block has its south-west corner at index i.
fn is_corner(nodes: &Nodes, i: u32) -> bool
    requires { i < nodes.now.columns * nodes.now.rows }
    ensures { result ≡ corner (bad nodes.now) (i / nodes.now.columns) (i % nodes.now.columns) }
{
    if nodes.map[i as usize] == 0 {
        return false;
    }
    let p = Place {
        row: Row(i / nodes.columns),
        column: Column(i % nodes.columns),
    };
    !nodes.is_bad_ahead(p, Heading::West, 1) && !nodes.is_bad_ahead(p, Heading::South, 1)
}

// The number of blocks: each has one such corner.
pub fn count_blocks(nodes: &Nodes) -> u32
    ensures { result ≡ length (blocks nodes.now) }
{
    let mut k = 0;
    for i in 0..nodes.columns * nodes.rows {
        if is_corner(nodes, i) {
            k += 1;
        }
    }
    k
}

impl<'a> Marks<'a> {
    // Refusal 8 for one place: some block has a node in its row, one or two columns away. A look at four nodes.
    #[tactic(auto, using(crate::proofs::Near::near_first, crate::proofs::Near::near_second))]
    pub fn is_block_near_in_row(&self, p: Place) -> bool
        requires { OnMesh self.now p }
        ensures { result ≡ block_near_in_row self.now p }
    {
        let nodes = &self.nodes;
        nodes.is_bad_beside(p, 1) || nodes.is_bad_beside(p, 2)
    }
}
