// A card with its depth and root nonce beside it, and a block of one.
ghost use Rattle.std.specs.Prelude.{◌≡◌, ◌^◌, ◌≤◌, ◌<◌, ◌+◌, ◌/◌, length};
ghost use Rattle.words.specs.Words.{bytes, block_of};
ghost use Rattle.cmac.specs.Context.{tag_by, count_by};
ghost use Rattle.tree.specs.Layout.{IsNode, IsCard, card_length, label, tag, size};
ghost use Rattle.tree.specs.Labels.{form, message, labels};
ghost use Rattle.tree.specs.Card.{right};

use crate::Message;
use cmac::Context;
use cmac::counted::Counted;
use tree::{Anchor, BlockIndex, Depth, Entry, Node, Nonce, Path, numbers};
use words::{Block, Packed};

// A card of a depth that is allowed, with its length.
#[derive(Clone, Copy)]
pub struct CardView<'a> {
    pub depth: Depth,
    pub root: Nonce,
    pub bytes: &'a [u8],
    pub ghost deep: { 1 ≤ depth.levels },
    pub ghost full: { length bytes.now ≡ card_length depth.levels },
}

impl<'a> CardView<'a> {
    // An anchor's card. Its facts are asked here and stand in the type from here on.
    pub fn of(anchor: Anchor, card: &'a [u8]) -> CardView<'a>
        requires { IsCard anchor.depth card.now }
        ensures depth { result.depth.levels ≡ anchor.depth }
        ensures root { result.root ≡ anchor.root }
        ensures bytes { result.bytes.now ≡ card.now }
    {
        CardView {
            depth: anchor.card_depth(),
            root: anchor.root,
            bytes: card,
        }
    }

    // The label of the root or of an inner node.
    pub fn nonce_at(&self, node: Node) -> u64
        requires { (1 ≤ node.0) × (node.0 < 2 ^ self.now.depth.levels) }
        ensures { bytes 8 result ≡ labels self.now.depth.levels self.now.root.0 self.now.bytes.now node.0 }
    {
        if node.0 == 1 {
            return numbers::be(self.root.0);
        }
        let entry = Entry {
            depth: self.depth,
            node,
        };
        u64::at(self.bytes, entry.offset())
    }
}

// A node of such a card.
#[derive(Clone, Copy)]
pub struct NodeView<'a> {
    pub card: CardView<'a>,
    pub node: Node,
    pub ghost on_card: { IsNode card.depth.levels node.0 },
}

impl<'a> NodeView<'a> {
    // Its label.
    pub fn label(&self) -> &'a [u8]
        ensures { result.now ≡ label self.now.card.depth.levels self.now.card.bytes.now self.now.node.0 }
    {
        let entry = Entry {
            depth: self.card.depth,
            node: self.node,
        };
        &self.card.bytes[entry.offset()..entry.tag_offset()]
    }

    // The tag beside it.
    pub fn stored_tag(&self) -> Block
        ensures { block_of result ≡ tag self.now.card.depth.levels self.now.card.bytes.now self.now.node.0 }
    {
        let entry = Entry {
            depth: self.card.depth,
            node: self.node,
        };
        Block::at(self.card.bytes, entry.tag_offset())
    }

    // Its message.
    pub fn message(&self) -> Message<'a>
        ensures size { length result.label.now ≡ size self.now.card.depth.levels self.now.node.0 }
        ensures form { form result.label.now (bytes 8 result.parent) result.side
            ≡ message (labels self.now.card.depth.levels self.now.card.root.0 self.now.card.bytes.now) self.now.node.0 }
    {
        Message {
            label: self.label(),
            parent: self.card.nonce_at(self.node.parent()),
            side: self.node.side(),
        }
    }

    // Whether that tag is right.
    pub fn is_right(&self, context: &Context) -> Counted<bool>
        ensures value { result.value
            ≡ right (tag_by context.now) self.now.card.depth.levels self.now.card.root.0 self.now.card.bytes.now self.now.node.0 }
        ensures count { result.count ≡ count_by context.now
            (message (labels self.now.card.depth.levels self.now.card.root.0 self.now.card.bytes.now) self.now.node.0) }
    {
        let made = self.message().tag(context);
        Counted {
            value: words::equal(made.value, self.stored_tag()),
            count: made.count,
        }
    }
}

// A block of such a card.
#[derive(Clone, Copy)]
pub struct BlockView<'a> {
    pub card: CardView<'a>,
    pub index: BlockIndex,
    pub ghost on_card: { index.0 < 2 ^ card.depth.levels },
}

impl<'a> BlockView<'a> {
    // A block of an anchor's card.
    pub fn of(anchor: Anchor, card: &'a [u8], index: BlockIndex) -> BlockView<'a>
        requires card { IsCard anchor.depth card.now }
        requires index { index.0 < 2 ^ anchor.depth }
        ensures depth { result.card.depth.levels ≡ anchor.depth }
        ensures root { result.card.root ≡ anchor.root }
        ensures bytes { result.card.bytes.now ≡ card.now }
        ensures index { result.index ≡ index }
    {
        BlockView {
            card: CardView::of(anchor, card),
            index,
        }
    }

    // The path to it.
    pub fn path(&self) -> Path
        ensures depth { result.depth.levels ≡ self.now.card.depth.levels }
        ensures index { result.index.0 ≡ self.now.index.0 }
    {
        Path {
            depth: self.card.depth,
            index: self.index,
        }
    }

    // Its bytes: the label of its leaf.
    pub fn bytes(&self) -> &'a [u8]
        ensures { result.now ≡ label self.now.card.depth.levels self.now.card.bytes.now (2 ^ self.now.card.depth.levels + self.now.index.0) }
    {
        let leaf = NodeView {
            card: self.card,
            node: Node(self.card.depth.leaves() + self.index.0),
        };
        leaf.label()
    }
}
