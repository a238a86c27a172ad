// Labels and tags put on the card. What puts tags answers the count of the cipher's calls for them. `IsCard` is asked of each card that is
// written: a struct that holds a `&mut [u8]` with that fact was tried, and took two more clauses for each method, on its depth and on the
// reference staying, to save one.
#![tactic(auto)]

ghost use Rattle.std.specs.Prelude.{◌≡◌, ◌++◌, map, ℕ, ◌+◌, ◌%◌, ◌^◌, ◌<◌, length};
ghost use Rattle.std.proofs.lemmas.List.Edits.{sets};
ghost use Rattle.words.specs.Words.{bytes};
ghost use Rattle.cmac.specs.Context.{tag_by, count_by};
ghost use Rattle.tree.specs.Layout.{IsCard, size, offset, label};
ghost use Rattle.tree.specs.Nodes.{path as path_nodes, pairs, all_nodes};
ghost use Rattle.tree.specs.Labels.{form, message, nonce_or_block, blank_labels, written_labels};
ghost use Rattle.tree.specs.Card.{laid, blanked, written};
ghost use Rattle.tree.specs.Calls.{total};

use card::Message;
use cmac::Context;
use tree::{Depth, Entry, Node, Nonce, Path, numbers};
use words::Packed;

// Puts the label of a node: the nonce where it is an inner node, the block where it is a leaf.
fn put_label(entry: Entry, card: &mut [u8], nonce: Nonce, block: &[u8])
    requires card { IsCard entry.depth.levels card.old }
    requires block_len { length block.now ≡ 64 }
    ensures { card.new ≡ sets card.old (offset entry.depth.levels entry.node.0)
        (nonce_or_block entry.depth.levels nonce.0 block.now entry.node.0) }
{
    let start = entry.offset();
    if entry.node.0 < entry.depth.leaves() {
        numbers::be(nonce.0).put(card, start);
    } else {
        words::put(card, start, block);
    }
}

// Puts the tag of a node, for its label on the card and its parent's label.
fn put_tag(context: &Context, entry: Entry, card: &mut [u8], parent: u64) -> u64
    requires { IsCard entry.depth.levels card.old }
    ensures card_after { card.new
        ≡ sets card.old (offset entry.depth.levels entry.node.0 + size entry.depth.levels entry.node.0)
        (tag_by context.now (form (label entry.depth.levels card.old entry.node.0) (bytes 8 parent) (entry.node.0 % 2))) }
    ensures value { result
        ≡ count_by context.now (form (label entry.depth.levels card.old entry.node.0) (bytes 8 parent) (entry.node.0 % 2)) }
{
    let place = entry.tag_offset();
    let message = Message {
        label: &card[entry.offset()..place],
        parent,
        side: entry.node.side(),
    };
    let made = message.tag(context);
    made.value.put(card, place);
    made.count
}

// Puts both.
fn put_entry(
    context: &Context,
    entry: Entry,
    card: &mut [u8],
    nonce: Nonce,
    block: &[u8],
    parent: u64,
) -> u64
    requires card { IsCard entry.depth.levels card.old }
    requires block_len { length block.now ≡ 64 }
    ensures card_after { card.new
        ≡ sets card.old (offset entry.depth.levels entry.node.0)
        (nonce_or_block entry.depth.levels nonce.0 block.now entry.node.0
        ++ tag_by context.now
        (form (nonce_or_block entry.depth.levels nonce.0 block.now entry.node.0) (bytes 8 parent) (entry.node.0 % 2))) }
    ensures value { result ≡ count_by context.now
        (form (nonce_or_block entry.depth.levels nonce.0 block.now entry.node.0) (bytes 8 parent) (entry.node.0 % 2)) }
{
    put_label(entry, card, nonce, block);
    put_tag(context, entry, card, parent)
}

// Every entry anew: all nonces the same, all blocks zero.
pub fn blank(context: &Context, depth: Depth, nonce: Nonce, card: &mut [u8]) -> u64
    requires { IsCard depth.levels card.old }
    ensures card_after { card.new ≡ blanked (tag_by context.now) depth.levels nonce.0 card.old }
    ensures value { result ≡ total (count_by context.now)
        (map (message (blank_labels depth.levels nonce.0)) (all_nodes depth.levels)) }
{
    let zero = [0u8; 64];
    let parent = numbers::be(nonce.0);
    let mut count = 0u64;
    for y in 0..2 * depth.leaves() - 2 {
        let entry = Entry {
            depth,
            node: Node(y + 2),
        };
        count += put_entry(context, entry, card, nonce, &zero, parent);
    }
    count
}

// A block that a write puts on a card: the path to it, the last nonce used before, of which enough are left, and its bytes.
#[derive(Clone, Copy)]
pub struct NewBlock<'a> {
    pub path: Path,
    pub last: Nonce,
    pub bytes: &'a [u8],
    pub ghost sized: { length bytes.now ≡ 64 },
    pub ghost nonces_left: { last.0 + path.depth.levels < 2 ^ 64 },
}

impl<'a> NewBlock<'a> {
    // The root nonce after the write.
    pub fn root(&self) -> Nonce
        ensures { result.0 ≡ self.now.last.0 + self.now.path.depth.levels }
    {
        Nonce(self.last.0 + self.path.depth.levels)
    }

    // Puts all of it: each node of its path gets its label and its tag, with the nonces after the last one used, each sibling its tag.
    pub fn stamp(&self, context: &Context, card: &mut [u8]) -> u64
        requires { IsCard self.now.path.depth.levels card.old }
        ensures card_after { (t : ℕ) → card.new
            ≡ written (tag_by context.now) self.now.path.depth.levels t self.now.last.0 card.old self.now.path.index.0 self.now.bytes.now }
        ensures value { (t : ℕ) → result ≡ total (count_by context.now)
            (map (message (written_labels self.now.path.depth.levels t self.now.last.0 card.old self.now.path.index.0 self.now.bytes.now))
            (pairs self.now.path.depth.levels self.now.path.index.0)) }
    {
        let depth = self.path.depth;
        let root = self.root().0;
        let mut count = 0u64;
        for level in 0..depth.levels {
            let parent = numbers::be(root - level);
            let own = self.path.node(level + 1);
            let entry = Entry { depth, node: own };
            let nonce = Nonce(root - level - 1);
            count += put_entry(context, entry, card, nonce, self.bytes, parent);
            let other = Entry {
                depth,
                node: own.sibling(),
            };
            count += put_tag(context, other, card, parent);
        }
        count
    }

    // Puts its labels without a tag: each node of its path gets its label.
    pub fn lay(&self, card: &mut [u8])
        requires { IsCard self.now.path.depth.levels card.old }
        ensures { (t : ℕ) → card.new
            ≡ laid self.now.path.depth.levels
            (written_labels self.now.path.depth.levels t self.now.last.0 card.old self.now.path.index.0 self.now.bytes.now)
            (path_nodes self.now.path.depth.levels self.now.path.index.0) card.old }
    {
        let root = self.root().0;
        for level in 0..self.path.depth.levels {
            let entry = Entry {
                depth: self.path.depth,
                node: self.path.node(level + 1),
            };
            put_label(entry, card, Nonce(root - level - 1), self.bytes);
        }
    }
}
