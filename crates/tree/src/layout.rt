// Where a node lies on the card.
ghost use Rattle.std.specs.Prelude.{◌≡◌, ◌^◌, ◌≤◌, ◌<◌, ◌*◌, ◌+◌};
ghost use Rattle.tree.specs.Layout.{IsNode, size, offset};

use crate::Node;

// A depth that the layout holds for. Limit 1 keeps 0 out.
#[derive(Clone, Copy)]
pub struct Depth {
    pub levels: u64,
    pub ghost shallow: { levels ≤ 16 },
}

impl Depth {
    // How many blocks a card has, which is also the number of its first leaf.
    pub fn leaves(self) -> u64
        ensures { result ≡ 2 ^ self.levels }
    {
        1 << self.levels
    }

    // How many bytes the label of a node has.
    #[tactic(auto, unfolding(crate::specs::Layout::size))]
    pub fn size(self, node: Node) -> usize
        ensures { result ≡ size self.levels node.0 }
    {
        if node.0 < self.leaves() { 8 } else { 64 }
    }
}

// The entry of a node on a card of that depth: its label and then its tag.
#[derive(Clone, Copy)]
pub struct Entry {
    pub depth: Depth,
    pub node: Node,
    pub ghost on_card: { IsNode depth.levels node.0 },
}

impl Entry {
    // How many bytes its label has.
    pub fn size(self) -> usize
        ensures { result ≡ size self.depth.levels self.node.0 }
    {
        self.depth.size(self.node)
    }

    // Where it begins.
    #[tactic(auto, unfolding(crate::specs::Layout::offset))]
    pub fn offset(self) -> usize
        ensures { result ≡ offset self.depth.levels self.node.0 }
    {
        let first = self.depth.leaves();
        if self.node.0 < first {
            return (24 * (self.node.0 - 2)) as usize;
        }
        (24 * (first - 2) + 80 * (self.node.0 - first)) as usize
    }

    // Where its tag begins, behind the label.
    #[tactic(auto, unfolding(crate::specs::Layout::offset, crate::specs::Layout::size))]
    pub fn tag_offset(self) -> usize
        ensures { result ≡ offset self.depth.levels self.node.0 + size self.depth.levels self.node.0 }
    {
        self.offset() + self.size()
    }
}
