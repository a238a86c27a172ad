// A write that can be finished after a cut of the supply (document 02, T-05): it fills a journal beside the range buffer, and the recovery
// brings a card to the root nonce of the anchor with it.
#![tactic(auto)]

mod within;

ghost use Rattle.std.specs.Prelude.{◌≡◌, [], ◌∷◌, ◌++◌};
ghost use Rattle.std.specs.Result.{result_unwrap_or};
ghost use Rattle.cmac.specs.Cmac.{cmac_of};
ghost use Rattle.cmac.specs.Traced.{subkeys_count, cmac_count};
ghost use Rattle.tree.specs.Answer.{answer_in, limited_in};
ghost use Rattle.tree.specs.Tests.{tested};
ghost use Rattle.tree.specs.Calls.{Gives, first_limits};
ghost use Rattle.journal.specs.Journalled.{journal_limit, journalled_limits, journalled, Journals};
ghost use Rattle.journal.specs.Recovery.{recovered};

use cmac::counted::Counted;
use tree::{Anchor, BlockIndex, Depth, Error, Refusal, limits};

// What an accepted journalled write gives back: the anchor with the reserved nonce raised and the old root nonce, which is stored first,
// and the final one.
#[derive(Clone, Copy)]
pub struct Written {
    pub raised: Anchor,
    pub anchor: Anchor,
}

// Writes a block as `calls::write` does, and fills the journal for it.
pub fn write(
    anchor: Anchor,
    card: &mut [u8],
    index: BlockIndex,
    block: &[u8],
    ranges: &mut [u8],
    journal: &mut [u8],
) -> Counted<Result<Written, Error>>
    ensures { Journals (subkeys_count anchor.key) (cmac_count anchor.key)
        (journalled (cmac_of anchor.key) anchor card.old index.0 block.now ranges.old journal.old)
        (answer_in result.value) result.count
        (result_unwrap_or result.value (record { raised = anchor; anchor = anchor })).raised
        (result_unwrap_or result.value (record { raised = anchor; anchor = anchor })).anchor card.new ranges.new journal.new }
{
    match write_limits(
        anchor,
        card.len(),
        index,
        block.len(),
        ranges.len(),
        journal.len(),
    ) {
        Ok(()) => within::write(anchor, card, index, block, ranges, journal),
        Err(refusal) => calls::refused(refusal),
    }
}

// What a journalled write tests. `len`, `block`, `ranges` and `journal` are the lengths of what it is given.
#[tactic(auto, unfolding(tree::specs::Limits::first_failing))]
fn write_limits(
    anchor: Anchor,
    len: usize,
    index: BlockIndex,
    block: usize,
    ranges: usize,
    journal: usize,
) -> Result<(), Refusal>
    ensures { result ≡ tested (journalled_limits anchor len index.0 block ranges journal) }
{
    limits::first(anchor, len)?;
    journal_length(anchor.card_depth(), journal)?;
    limits::write_rest(anchor, index, block, ranges)
}

// Brings the card to the root nonce of the anchor where the journal is for that, and else leaves it. It looks at no tag of the card.
pub fn recover(anchor: Anchor, card: &mut [u8], journal: &[u8]) -> Result<(), Refusal>
    ensures { Gives (recovered (cmac_of anchor.key) anchor card.old journal.now) (limited_in result) anchor card.new [] }
{
    recovery_limits(anchor, card.len(), journal.len())?;
    within::recover(anchor, card, journal)
}

// What a recovery tests before it looks at the journal. `len` and `journal` are the lengths of card and journal.
#[tactic(auto, unfolding(tree::specs::Limits::first_failing))]
fn recovery_limits(anchor: Anchor, len: usize, journal: usize) -> Result<(), Refusal>
    ensures { result ≡ tested (first_limits anchor len ++ (journal_limit anchor.depth journal ∷ [])) }
{
    limits::first(anchor, len)?;
    journal_length(anchor.card_depth(), journal)
}

// 10: a journal has its length.
#[tactic(auto, unfolding(tree::specs::Limits::first_failing))]
fn journal_length(depth: Depth, len: usize) -> Result<(), Refusal>
    ensures { result ≡ tested (journal_limit depth.levels len ∷ []) }
{
    if len as u64 == 56 * depth.levels + 80 {
        Ok(())
    } else {
        Err(Refusal::Journal)
    }
}
