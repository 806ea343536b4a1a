// The nodes of a map or a marking: which are bad, which the rules make unsafe, and what each becomes in a round.
#![tactic(auto)]

ghost use Rattle.std.specs.Prelude.{◌≡◌, ◌||◌, ◌+◌, ◌*◌, ◌<◌, get_or};
ghost use Rattle.mesh.specs.declared.Heading.TheVariants.{East, West};
ghost use Rattle.mesh.specs.Mesh.{on_mesh};
ghost use Rattle.mesh.specs.Nodes.{bad, ahead, upright, unsafe};
ghost use Rattle.nodes.specs.Sized.{OnMesh};
ghost use Rattle.nodes.specs.Rounds.{node_after};

use mesh::{Column, Heading, Place, Row};
use std::marker::Model;

// A mesh of at most 64 columns and rows, and a number for each of its nodes: a fault map, or a marking. In a clause it is a `Mesh`.
#[derive(Drop)]
pub struct Nodes<'a> {
    pub columns: u32,
    pub rows: u32,
    pub map: &'a [u8],
}

impl<'a> Model for Nodes<'a> {
    ghost use Rattle.mesh.specs.Mesh.{Mesh, mesh};
    ghost use Rattle.nodes.specs.Sized.{Sized};

    ghost Value = { Mesh };

    ghost view = { λ n. mesh n.columns n.rows n.map.now };

    ghost invariant = { λ n. Sized n.columns n.rows n.map.now };
}

impl<'a> Nodes<'a> {
    // Whether the place is on the mesh.
    #[tactic(auto, unfolding(mesh::specs::Mesh::on_mesh))]
    pub fn has(&self, p: Place) -> bool
        ensures { result ≡ on_mesh self.now p.row.0 p.column.0 }
    {
        p.row.0 < self.rows && p.column.0 < self.columns
    }

    // The number of a node.
    fn get(&self, p: Place) -> u8
        requires { OnMesh self.now p }
        ensures { result ≡ get_or self.now.map (p.row.0 * self.now.columns + p.column.0) 0 }
    {
        self.map[(p.row.0 * self.columns + p.column.0) as usize]
    }

    // Whether the node is bad.
    pub fn is_bad_node(&self, p: Place) -> bool
        requires { OnMesh self.now p }
        ensures { result ≡ bad self.now p.row.0 p.column.0 }
    {
        self.get(p) != 0
    }

    // Whether the place is a bad node. Places beyond the mesh never are.
    pub fn is_bad(&self, p: Place) -> bool
        ensures { result ≡ bad self.now p.row.0 p.column.0 }
    {
        self.has(p) && self.is_bad_node(p)
    }

    // Whether the node k hops that way is bad.
    pub fn is_bad_ahead(&self, p: Place, h: Heading, k: u32) -> bool
        requires { OnMesh self.now p × (k < 64) }
        ensures { result ≡ ahead (bad self.now) h k p.row.0 p.column.0 }
    {
        let Place {
            row: Row(row),
            column: Column(column),
        } = p;
        let _ = &self.columns;
        match h {
            Heading::East => self.is_bad(Place {
                column: Column(column + k),
                ..p
            }),
            Heading::North => self.is_bad(Place {
                row: Row(row + k),
                ..p
            }),
            Heading::South => k <= row
                && self.is_bad(Place {
                    row: Row(row - k),
                    ..p
                }),
            Heading::West => k <= column
                && self.is_bad(Place {
                    column: Column(column - k),
                    ..p
                }),
        }
    }

    // Whether a node k columns to the east or west is bad.
    pub fn is_bad_beside(&self, p: Place, k: u32) -> bool
        requires { OnMesh self.now p × (k < 64) }
        ensures { result ≡ ahead (bad self.now) East k p.row.0 p.column.0 || ahead (bad self.now) West k p.row.0 p.column.0 }
    {
        self.is_bad_ahead(p, Heading::East, k) || self.is_bad_ahead(p, Heading::West, k)
    }

    // Whether the north or south neighbour is bad.
    #[tactic(auto, unfolding(mesh::specs::Nodes::upright))]
    fn is_upright(&self, p: Place) -> bool
        requires { OnMesh self.now p }
        ensures { result ≡ upright (bad self.now) p.row.0 p.column.0 }
    {
        self.is_bad_ahead(p, Heading::North, 1) || self.is_bad_ahead(p, Heading::South, 1)
    }

    // Rules (a) and (b): whether the node becomes unsafe if it is sound.
    pub fn is_unsafe(&self, p: Place) -> bool
        requires { OnMesh self.now p }
        ensures { result ≡ unsafe (bad self.now) p.row.0 p.column.0 }
    {
        if self.is_upright(p) {
            self.is_bad_beside(p, 1) || self.is_bad_beside(p, 2)
        } else {
            self.is_bad_ahead(p, Heading::East, 1) && self.is_bad_ahead(p, Heading::West, 1)
        }
    }

    // What the node becomes in a round.
    pub fn node_after(&self, p: Place) -> u8
        requires { OnMesh self.now p }
        ensures { result ≡ node_after self.now p.row.0 p.column.0 }
    {
        let x = self.get(p);
        if x == 0 && self.is_unsafe(p) { 2 } else { x }
    }
}
