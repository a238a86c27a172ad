// A write split into a plan and its puts, for a box with several cipher engines (document 02, T-03): the plan makes a write's checks, lays
// its labels on the card and gives the messages; the engines return the tags singly, and each is put in a step of its own.
#![tactic(auto)]

mod within;

ghost use Rattle.std.specs.Prelude.{◌≡◌, [], ◌∷◌, ◌++◌};
ghost use Rattle.std.specs.Result.{result_unwrap_or};
ghost use Rattle.cmac.specs.Cmac.{cmac_of};
ghost use Rattle.cmac.specs.Traced.{subkeys_count, cmac_count};
ghost use Rattle.tree.specs.Answer.{answer_in, limited_in};
ghost use Rattle.tree.specs.Tests.{tested};
ghost use Rattle.tree.specs.Calls.{first_limits};
ghost use Rattle.plan.specs.Split.{planned, no_plan, Plans, place_limit, put, Puts};

use cmac::counted::Counted;
use plan::{MESSAGE_BYTES, Plan};
use tree::{Anchor, BlockIndex, Error, Node, Refusal, limits};

// What an accepted plan or put gives back: the anchor and the plan as they are then.
#[derive(Clone, Copy)]
pub struct Progress {
    pub anchor: Anchor,
    pub plan: Plan,
}

// Plans a write: its limits and checks, then its labels on the card, its ranges, and the messages at the front of the buffer. The anchor has
// the write's nonces reserved, and its old root nonce. The count is of the checks; the engines make the rest.
pub fn plan(
    anchor: Anchor,
    card: &mut [u8],
    index: BlockIndex,
    block: &[u8],
    ranges: &mut [u8],
    messages: &mut [u8; MESSAGE_BYTES],
) -> Counted<Result<Progress, Error>>
    ensures { Plans (subkeys_count anchor.key) (cmac_count anchor.key)
        (planned (cmac_of anchor.key) anchor card.old index.0 block.now ranges.old)
        messages.old (answer_in result.value) result.count
        (result_unwrap_or result.value (record { anchor = anchor; plan = no_plan })).anchor
        (result_unwrap_or result.value (record { anchor = anchor; plan = no_plan })).plan card.new ranges.new messages.new }
{
    match limits::write(anchor, card.len(), index, block.len(), ranges.len()) {
        Ok(()) => within::plan(anchor, card, index, block, ranges, messages),
        Err(refusal) => calls::refused(refusal),
    }
}

// Puts the tag of one node. It is not verified. The last one brings the new anchor.
pub fn put_tag(
    anchor: Anchor,
    plan: Plan,
    card: &mut [u8],
    node: Node,
    tag: [u8; 16],
) -> Result<Progress, Refusal>
    ensures { Puts (put anchor plan card.old node.0 tag) (limited_in result)
        (result_unwrap_or result (record { anchor = anchor; plan = plan })).anchor
        (result_unwrap_or result (record { anchor = anchor; plan = plan })).plan card.new }
{
    put_limits(anchor, plan, card.len(), node)?;
    Ok(within::put_tag(anchor, plan, card, node, tag))
}

// What a put tests.
#[tactic(auto, unfolding(tree::specs::Limits::first_failing))]
fn put_limits(anchor: Anchor, plan: Plan, len: usize, node: Node) -> Result<(), Refusal>
    ensures { result ≡ tested (first_limits anchor len ++ (place_limit anchor.depth plan node.0 ∷ [])) }
{
    limits::first(anchor, len)?;
    plan.awaits(anchor.card_depth(), node)
}
