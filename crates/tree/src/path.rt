// The nodes of a path.
ghost use Rattle.std.specs.Prelude.{◌≡◌, ◌+◌, ◌*◌, ◌/◌, ◌%◌, ◌^◌, ◌≤◌, ◌<◌};
ghost use Rattle.tree.specs.Nodes.{path_node, sibling};

use crate::{BlockIndex, Depth, Node};

// The path from the root to a block of a card of that depth.
#[derive(Clone, Copy)]
pub struct Path {
    pub depth: Depth,
    pub index: BlockIndex,
    pub ghost on_card: { index.0 < 2 ^ depth.levels },
}

impl Path {
    // Its node at a level.
    #[tactic(auto, unfolding(crate::specs::Nodes::path_node))]
    pub fn node(self, level: u64) -> Node
        requires { level ≤ self.depth.levels }
        ensures { result.0 ≡ path_node self.depth.levels self.index.0 level }
    {
        let leaf = self.depth.leaves() + self.index.0;
        Node(leaf >> (self.depth.levels - level))
    }
}

impl Node {
    // Its parent.
    pub fn parent(self) -> Node
        ensures { result.0 ≡ self.0 / 2 }
    {
        Node(self.0 / 2)
    }

    // On which side of its parent it is.
    pub fn side(self) -> u8
        ensures { result ≡ self.0 % 2 }
    {
        (self.0 % 2) as u8
    }

    // It and the other child of its parent, the lower one first.
    pub fn pair(self) -> (Node, Node)
        ensures lower { result.0.0 ≡ 2 * (self.0 / 2) }
        ensures upper { result.1.0 ≡ 2 * (self.0 / 2) + 1 }
    {
        let lower = 2 * (self.0 / 2);
        (Node(lower), Node(lower + 1))
    }

    // The other child of its parent.
    #[tactic(auto, unfolding(crate::specs::Nodes::sibling))]
    pub fn sibling(self) -> Node
        requires { self.0 < 131072 }
        ensures { result.0 ≡ sibling self.0 }
    {
        Node(self.0 + 1 - 2 * (self.0 % 2))
    }
}
