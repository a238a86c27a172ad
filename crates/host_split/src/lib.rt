// A plan and a put of a tag as C has them: the anchor, the plan and the messages are bytes, and the answer is one number, since C calls
// them through pat. Another length of any of these is refused before the rest.
#![tactic(auto)]

ghost use Rattle.std.specs.Prelude.{◌≡◌, cond};
ghost use Rattle.std.specs.Result.{result_unwrap_or};
ghost use Rattle.tree.specs.Answer.{is_whole, answer_in};
ghost use Rattle.plan.specs.Split.{no_plan};
ghost use Rattle.host_bytes.specs.Host.{anchor_of, with_reserved};
ghost use Rattle.host_bytes.specs.Split.{bytes_of, host_plan, HostsPlan, host_put, HostsPut};

use host_bytes::{ANCHOR_BYTES, PLAN_BYTES, REFUSED_LENGTH, anchor, code, plan_bytes};
use split::Progress;
use tree::{BlockIndex, Error, Node};

// Plans a write whose tags come singly: puts its labels on the card, its ranges, the plan and the messages into their buffers, and the
// reserved nonce into the anchor.
#[tactic(auto, unfolding(host_bytes::specs::Split::host_plan), using(host_bytes::proofs::Sizes::plan_bytes_length, host_bytes::proofs::Sizes::messages))]
pub fn plan(
    anchor: &mut [u8],
    card: &mut [u8],
    index: u64,
    block: &[u8],
    ranges: &mut [u8],
    plan: &mut [u8],
    messages: &mut [u8],
) -> u64
    ensures { HostsPlan
        (host_plan anchor.old card.old index block.now ranges.old
        plan.old messages.old)
        result anchor.new plan.new card.new ranges.new messages.new }
{
    let Some(anchor) = anchor.as_mut_array() else {
        return REFUSED_LENGTH;
    };
    let Some(plan) = plan.as_mut_array() else {
        return REFUSED_LENGTH;
    };
    let Some(messages) = messages.as_mut_array() else {
        return REFUSED_LENGTH;
    };
    let given = anchor::of(anchor);
    let made = split::plan(given, card, BlockIndex(index), block, ranges, messages).value;
    settle(anchor, plan, made);
    code::of(made)
}

// Puts the reserved nonce and the plan of an accepted plan into their bytes.
fn settle(
    anchor: &mut [u8; ANCHOR_BYTES],
    plan: &mut [u8; PLAN_BYTES],
    made: Result<Progress, Error>,
)
    ensures anchor_after { anchor.new ≡ cond (is_whole (answer_in made))
        (with_reserved anchor.old (result_unwrap_or made (record { anchor = anchor_of anchor.old; plan = no_plan })).anchor.reserved.0)
        anchor.old }
    ensures plan_after { plan.new ≡ cond (is_whole (answer_in made))
        (bytes_of (result_unwrap_or made (record { anchor = anchor_of anchor.old; plan = no_plan })).plan) plan.old }
{
    if let Ok(progress) = made {
        anchor::put_reserved(anchor, progress.anchor.reserved);
        plan_bytes::put(plan, progress.plan);
    }
}

// Puts one tag of a plan on the card, and notes it in the plan. The last one puts the new root nonce into the anchor.
#[tactic(auto, unfolding(host_bytes::specs::Split::host_put), using(host_bytes::proofs::Sizes::put))]
pub fn put_tag(anchor: &mut [u8], plan: &mut [u8], card: &mut [u8], node: u64, tag: &[u8]) -> u64
    ensures { HostsPut
        (host_put anchor.old plan.old card.old node tag.now)
        result anchor.new plan.new card.new }
{
    let Some(tag) = tag.as_array() else {
        return REFUSED_LENGTH;
    };
    let Some(anchor) = anchor.as_mut_array() else {
        return REFUSED_LENGTH;
    };
    let Some(plan) = plan.as_mut_array() else {
        return REFUSED_LENGTH;
    };
    let given = anchor::of(anchor);
    let kept = plan_bytes::of(plan);
    let answer = split::put_tag(given, kept, card, Node(node), *tag).map_err(Error::from);
    if let Ok(placed) = answer {
        plan_bytes::put_filled(plan, placed.plan.filled);
        anchor::put_moved(anchor, given.root, placed.anchor.root);
    }
    code::of(answer)
}
