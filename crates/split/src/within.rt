// What a plan and a put do within their limits, which are asked as in `work`.
ghost use Rattle.std.specs.Prelude.{◌≡◌, ◌++◌, map, ℕ, ◌+◌, ◌*◌, ◌^◌, ◌≤◌, ◌<◌, length, drop};
ghost use Rattle.std.specs.Result.{result_unwrap_or};
ghost use Rattle.std.proofs.Math.Option.{none};
ghost use Rattle.cmac.specs.Cmac.{cmac_of};
ghost use Rattle.cmac.specs.Traced.{subkeys_count, cmac_count};
ghost use Rattle.tree.specs.Layout.{IsCard};
ghost use Rattle.tree.specs.Nodes.{path as path_nodes};
ghost use Rattle.tree.specs.Labels.{written_labels};
ghost use Rattle.tree.specs.Card.{laid};
ghost use Rattle.tree.specs.Ranges.{listed};
ghost use Rattle.tree.specs.Limits.{first_failing};
ghost use Rattle.tree.specs.Answer.{Whole, answer_in};
ghost use Rattle.tree.specs.Calls.{write, limits};
ghost use Rattle.plan.specs.Places.{plan_nodes};
ghost use Rattle.plan.specs.Split.{given, planned, no_plan, joined, Plans, put_limits, put, Puts};

use crate::Progress;
use card::{BlockView, CardView, walk};
use cmac::Context;
use cmac::counted::Counted;
use plan::{MESSAGE_BYTES, Plan};
use stamp::NewBlock;
use tree::{Anchor, BlockIndex, Entry, Error, Node, ranges};

// Plans the write once its limits are passed: its checks, and then what it lays on the card.
pub(crate) fn plan(
    anchor: Anchor,
    card: &mut [u8],
    index: BlockIndex,
    block: &[u8],
    ranges: &mut [u8],
    messages: &mut [u8; MESSAGE_BYTES],
) -> Counted<Result<Progress, Error>>
    requires { first_failing (limits anchor card.old (write index.0 block.now ranges.old)) ≡ none }
    ensures { Plans (subkeys_count anchor.key) (cmac_count anchor.key)
        (planned (cmac_of anchor.key) anchor card.old index.0 block.now ranges.old)
        messages.old (answer_in result.value) result.count
        (result_unwrap_or result.value (record { anchor = anchor; plan = no_plan })).anchor
        (result_unwrap_or result.value (record { anchor = anchor; plan = no_plan })).plan card.new ranges.new messages.new }
{
    let seen = BlockView::of(anchor, card, index);
    let path = seen.path();
    let context = Context::new(anchor.key);
    let found = walk::pairs(&context, &seen);
    let value = match found.value {
        Ok(()) => {
            let new = NewBlock {
                path,
                last: anchor.reserved,
                bytes: block,
            };
            Ok(Progress {
                anchor: anchor.raise(),
                plan: lay(&new, card, ranges, messages),
            })
        }
        Err(error) => Err(error),
    };
    Counted {
        value,
        count: context.count + found.count,
    }
}

// Lays the write on the card, without its tags: labels, ranges and messages. The plan waits for every tag. `IsCard` is asked as in stamp,
// which writes the card.
fn lay(
    new: &NewBlock,
    card: &mut [u8],
    ranges: &mut [u8],
    messages: &mut [u8; MESSAGE_BYTES],
) -> Plan
    requires card { IsCard new.now.path.depth.levels card.old }
    requires ranges_room { 16 * new.now.path.depth.levels ≤ length ranges.old }
    ensures value { result ≡ record {
      index = new.now.path.index;
      root = record { 0 = new.now.last.0 + new.now.path.depth.levels };
      filled = 0;
    } }
    ensures card_after { (t : ℕ) → card.new ≡ laid new.now.path.depth.levels
        (written_labels new.now.path.depth.levels t new.now.last.0 card.old new.now.path.index.0 new.now.bytes.now)
        (path_nodes new.now.path.depth.levels new.now.path.index.0) card.old }
    ensures ranges_after { ranges.new ≡ listed new.now.path.depth.levels new.now.path.index.0 ranges.old }
    ensures messages_after { (t : ℕ) → messages.new
        ≡ joined (map
        (given (written_labels new.now.path.depth.levels t new.now.last.0 card.old new.now.path.index.0 new.now.bytes.now))
        (plan_nodes new.now.path.depth.levels new.now.path.index.0))
        ++ drop (34 * new.now.path.depth.levels + 112) messages.old }
{
    new.lay(card);
    ranges::fill(new.path, ranges);
    let root = new.root();
    let laid = BlockView {
        card: CardView {
            depth: new.path.depth,
            root,
            bytes: &*card,
        },
        index: new.path.index,
    };
    messages::fill(&laid, messages);
    Plan {
        index: new.path.index,
        root,
        filled: 0,
    }
}

// Puts the tag of a node that the plan waits for, and fills its place.
pub(crate) fn put_tag(
    anchor: Anchor,
    plan: Plan,
    card: &mut [u8],
    node: Node,
    tag: [u8; 16],
) -> Progress
    requires { first_failing (put_limits anchor plan card.old node.0) ≡ none }
    ensures { Puts (put anchor plan card.old node.0 tag) Whole result.anchor result.plan card.new }
{
    let depth = anchor.card_depth();
    let entry = Entry { depth, node };
    words::put(card, entry.tag_offset(), &tag);
    let filled = plan.fill(depth, node);
    let anchor = if filled.is_full(depth) {
        Anchor {
            root: filled.root,
            ..anchor
        }
    } else {
        anchor
    };
    Progress {
        anchor,
        plan: filled,
    }
}
