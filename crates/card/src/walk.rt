// The nodes that each call checks, in its order: whole, or the first whose tag is wrong. The cipher's calls are counted up to it.
ghost use Rattle.std.specs.Prelude.{◌≡◌, ◌≤◌, List, ℕ, map};
ghost use Rattle.std.specs.Iterator.{IsFinite};
ghost use Rattle.tree.specs.Nodes.{path, pair, pairs_but_leaf, all_nodes};
ghost use Rattle.card.specs.Walks.{Walks, GivesNodes};

use crate::{BlockView, CardView, NodeView};
use cmac::Context;
use cmac::counted::Counted;
use std::iter::once;
use tree::{Error, Node};

// What the checks found, with the count of the cipher's calls for them.
pub type Found = Counted<Result<(), Error>>;

// A read's: the path from level 1 down to the leaf.
pub fn path(context: &Context, block: &BlockView) -> Found
    ensures { Walks context.now block.now.card (path block.now.card.depth.levels block.now.index.0) result }
{
    let path = block.path();
    let nodes = (1..path.depth.levels + 1).map(|level| path.node(level));
    each(context, &block.card, nodes)
}

// A write's: each node of the path and then its sibling, and of the last level the sibling alone.
pub fn pairs(context: &Context, block: &BlockView) -> Found
    ensures { Walks context.now block.now.card (pairs_but_leaf block.now.card.depth.levels block.now.index.0) result }
{
    let path = block.path();
    let levels = path.depth.levels;
    let pairs = (1..levels).flat_map(
        move |level|
            requires { level ≤ path.depth.levels }
            ensures { map (λ u. u.0) result ≡ pair path.depth.levels path.index.0 level }
        {
            let own = path.node(level);
            [own, own.sibling()]
        },
    );
    let last = path.node(levels).sibling();
    each(context, &block.card, pairs.chain(once(last)))
}

// A check's: all, from 2 upwards.
pub fn all(context: &Context, card: &CardView) -> Found
    ensures { Walks context.now card.now (all_nodes card.now.depth.levels) result }
{
    each(context, card, (2..2 * card.depth.leaves()).map(Node))
}

// Each of these nodes, until the tag of one is wrong.
fn each<I: Iterator<Item = Node>>(context: &Context, card: &CardView, nodes: I) -> Found
    requires can { I.can_next nodes }
    requires ends { IsFinite (I.remaining nodes) }
    requires nodes { (us : List ℕ) × GivesNodes I.next_gives card.now.depth.levels nodes us }
    ensures { (us : List ℕ) → GivesNodes I.next_gives card.now.depth.levels nodes us → Walks context.now card.now us result }
{
    let mut count = 0u64;
    for node in nodes {
        let seen = NodeView { card: *card, node };
        let tested = seen.is_right(context);
        count += tested.count;
        if !tested.value {
            return Counted {
                value: Err(Error::WrongTag(node)),
                count,
            };
        }
    }
    Counted {
        value: Ok(()),
        count,
    }
}
