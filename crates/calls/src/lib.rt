// The calls of the tree. Each tests its limits in their order and leaves with the first that fails; what it does then is in `work`.
#![tactic(auto)]

ghost use Rattle.std.specs.Prelude.{◌≡◌, [], ◌∷◌, ◌++◌, Err};
ghost use Rattle.std.specs.Result.{result_unwrap_or};
ghost use Rattle.cmac.specs.Cmac.{cmac_of};
ghost use Rattle.cmac.specs.Traced.{subkeys_count, cmac_count};
ghost use Rattle.tree.specs.Answer.{answer_in, limited_in};
ghost use Rattle.tree.specs.Limits.{depth_limit, card_limit, block_limit, length_limit, spent_limit};
ghost use Rattle.tree.specs.Tests.{tested};
ghost use Rattle.tree.specs.Calls.{Gives, Reports, read, write, check, wipe, first_limits, formatted, outcome, format};
ghost use Rattle.tree.specs.declared.Error.TheVariants.{Limit};

use cmac::counted::Counted;
use tree::{Anchor, BlockIndex, Error, Nonce, Refusal};

// Makes a card of that depth with every block zero, and its anchor. No count goes with it.
pub fn format(key: [u8; 16], depth: u64, card: &mut [u8]) -> Result<Anchor, Refusal>
    ensures { Gives (format (cmac_of key) key depth card.old) (limited_in result)
        (result_unwrap_or result (formatted key depth)) card.new [] }
{
    let anchor = Anchor {
        key,
        depth,
        root: Nonce(0),
        reserved: Nonce(0),
    };
    format_limits(anchor, card.len())?;
    work::blank(anchor, card);
    Ok(anchor)
}

// What a format tests.
#[tactic(auto, unfolding(tree::specs::Limits::first_failing))]
fn format_limits(anchor: Anchor, len: usize) -> Result<(), Refusal>
    ensures { result ≡ tested (depth_limit anchor.depth ∷ card_limit anchor.depth len ∷ []) }
{
    tree::limits::depth(anchor.depth)?;
    tree::limits::card_length(anchor.card_depth(), len)
}

// Reads a block into the buffer, where every tag on its path is right.
pub fn read(
    anchor: Anchor,
    card: &[u8],
    index: BlockIndex,
    buffer: &mut [u8],
) -> Counted<Result<(), Error>>
    ensures { Reports (subkeys_count anchor.key) (cmac_count anchor.key)
        (outcome (cmac_of anchor.key) anchor card.now (read index.0 buffer.old))
        (answer_in result.value) result.count anchor card.now buffer.new }
{
    match read_limits(anchor, card.len(), index, buffer.len()) {
        Ok(()) => work::read(anchor, card, index, buffer),
        Err(refusal) => refused(refusal),
    }
}

// What a read tests.
#[tactic(auto, unfolding(tree::specs::Limits::first_failing))]
fn read_limits(anchor: Anchor, len: usize, index: BlockIndex, buffer: usize) -> Result<(), Refusal>
    ensures { result ≡ tested (first_limits anchor len ++ (block_limit anchor.depth index.0 ∷ length_limit buffer ∷ [])) }
{
    tree::limits::first(anchor, len)?;
    tree::limits::block_number(anchor.card_depth(), index)?;
    tree::limits::block_length(buffer)
}

// Makes a block the new one, where the tags of its path and of the siblings are right. The answer has the anchor as it is then, and the
// range buffer the parts of the card that changed.
pub fn write(
    anchor: Anchor,
    card: &mut [u8],
    index: BlockIndex,
    block: &[u8],
    ranges: &mut [u8],
) -> Counted<Result<Anchor, Error>>
    ensures { Reports (subkeys_count anchor.key) (cmac_count anchor.key)
        (outcome (cmac_of anchor.key) anchor card.old (write index.0 block.now ranges.old))
        (answer_in result.value) result.count (result_unwrap_or result.value anchor) card.new ranges.new }
{
    match tree::limits::write(anchor, card.len(), index, block.len(), ranges.len()) {
        Ok(()) => work::write(anchor, card, index, block, ranges),
        Err(limit) => refused(limit),
    }
}

// Checks every tag of the card.
pub fn check(anchor: Anchor, card: &[u8]) -> Counted<Result<(), Error>>
    ensures { Reports (subkeys_count anchor.key) (cmac_count anchor.key)
        (outcome (cmac_of anchor.key) anchor card.now check)
        (answer_in result.value) result.count anchor card.now [] }
{
    match tree::limits::first(anchor, card.len()) {
        Ok(()) => work::check(anchor, card),
        Err(refusal) => refused(refusal),
    }
}

// Empties the card under the same key: every block zero, every tag anew, with nonces that no call before it used. It looks at no byte of
// the card. The answer has the anchor as it is then.
pub fn wipe(anchor: Anchor, card: &mut [u8]) -> Counted<Result<Anchor, Error>>
    ensures { Reports (subkeys_count anchor.key) (cmac_count anchor.key)
        (outcome (cmac_of anchor.key) anchor card.old wipe)
        (answer_in result.value) result.count (result_unwrap_or result.value anchor) card.new [] }
{
    match wipe_limits(anchor, card.len()) {
        Ok(()) => {
            let wiped = work::wipe(anchor, card);
            Counted {
                value: Ok(wiped.value),
                count: wiped.count,
            }
        }
        Err(reason) => refused(reason),
    }
}

// What a wipe tests.
#[tactic(auto, unfolding(tree::specs::Limits::first_failing))]
fn wipe_limits(anchor: Anchor, len: usize) -> Result<(), Refusal>
    ensures { result ≡ tested (first_limits anchor len ++ (spent_limit anchor.depth anchor.reserved.0 ∷ [])) }
{
    tree::limits::first(anchor, len)?;
    tree::limits::nonces_spent(anchor.depth, anchor.reserved)
}

// A refusal by a limit: such a call has not gone through the cipher.
pub fn refused<T>(refusal: Refusal) -> Counted<Result<T, Error>>
    ensures value { result.value ≡ Err (Limit refusal) }
    ensures count { result.count ≡ 0 }
{
    Counted {
        value: Err(Error::from(refusal)),
        count: 0,
    }
}
