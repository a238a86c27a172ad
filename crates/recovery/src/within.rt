// What a journalled write and a recovery do within their limits, which are asked as in `work`.
ghost use Rattle.std.specs.Prelude.{◌≡◌, [], ◌∷◌, ◌++◌, length};
ghost use Rattle.std.specs.Result.{result_unwrap_or};
ghost use Rattle.std.proofs.Math.Option.{none};
ghost use Rattle.cmac.specs.Cmac.{cmac_of};
ghost use Rattle.cmac.specs.Context.{tag_by};
ghost use Rattle.cmac.specs.Traced.{subkeys_count, cmac_count};
ghost use Rattle.tree.specs.Answer.{answer_in, limited_in};
ghost use Rattle.tree.specs.Calls.{Gives, first_limits};
ghost use Rattle.tree.specs.Layout.{IsCard};
ghost use Rattle.tree.specs.Limits.{first_failing};
ghost use Rattle.journal.specs.Journal.{journal_length, journal_of, applies};
ghost use Rattle.journal.specs.Journalled.{journal_limit, journalled_limits, journalled, Journals};
ghost use Rattle.journal.specs.Recovery.{recovered};

use crate::Written;
use cmac::Context;
use cmac::counted::Counted;
use journal::JournalView;
use tree::{Anchor, BlockIndex, Error, Nonce, Path, Refusal};

// The write under one context, which the journal's tag is made with too; the count is the write's.
pub(crate) fn write(
    anchor: Anchor,
    card: &mut [u8],
    index: BlockIndex,
    block: &[u8],
    ranges: &mut [u8],
    journal: &mut [u8],
) -> Counted<Result<Written, Error>>
    requires { first_failing
        (journalled_limits anchor (length card.old) index.0 (length block.now) (length ranges.old) (length journal.old)) ≡ none }
    ensures { Journals (subkeys_count anchor.key) (cmac_count anchor.key)
        (journalled (cmac_of anchor.key) anchor card.old index.0 block.now ranges.old journal.old)
        (answer_in result.value) result.count
        (result_unwrap_or result.value (record { raised = anchor; anchor = anchor })).raised
        (result_unwrap_or result.value (record { raised = anchor; anchor = anchor })).anchor card.new ranges.new journal.new }
{
    let context = Context::new(anchor.key);
    let path = Path {
        depth: anchor.card_depth(),
        index,
    };
    let written = work::write_under(&context, anchor, card, index, block, ranges);
    let value = match written.value {
        Ok(moved) => {
            fill(&context, path, moved.root, card, journal);
            Ok(Written {
                raised: anchor.raise(),
                anchor: moved,
            })
        }
        Err(error) => Err(error),
    };
    Counted {
        value,
        count: written.count,
    }
}

// Fills the journal for a root nonce and the card that a write leaves. The count has no part of its tag.
fn fill(context: &Context, path: Path, root: Nonce, card: &[u8], journal: &mut [u8])
    requires card { IsCard path.depth.levels card.now }
    requires room { length journal.old ≡ journal_length path.depth.levels }
    ensures { journal.new ≡ journal_of (tag_by context.now) path.depth.levels root.0 path.index.0 card.now }
{
    journal::fill(path, root, card, journal);
    let filled = JournalView {
        depth: path.depth,
        bytes: &*journal,
    };
    let tag = context.tag(filled.message()).value;
    journal::put_tag(path.depth, tag, journal);
}

// The recovery. A journal that is to be applied and has no write's ranges is refused.
pub(crate) fn recover(anchor: Anchor, card: &mut [u8], journal: &[u8]) -> Result<(), Refusal>
    requires { first_failing (first_limits anchor (length card.old) ++ (journal_limit anchor.depth (length journal.now) ∷ [])) ≡ none }
    ensures { Gives (recovered (cmac_of anchor.key) anchor card.old journal.now) (limited_in result) anchor card.new [] }
{
    let depth = anchor.card_depth();
    let journal = JournalView {
        depth,
        bytes: journal,
    };
    if !applies(anchor, &journal) {
        return Ok(());
    }
    let Some(index) = journal::block(depth, journal.list()) else {
        return Err(Refusal::Journal);
    };
    journal::lay(Path { depth, index }, journal.new_bytes(), card);
    Ok(())
}

// Whether the journal is to be applied. A context is made only for one that has the anchor's root nonce.
fn applies(anchor: Anchor, journal: &JournalView) -> bool
    ensures { result ≡ applies (cmac_of anchor.key) journal.now.depth.levels anchor.root.0 journal.now.bytes.now }
{
    if !journal.is_for(anchor.root) {
        return false;
    }
    let context = Context::new(anchor.key);
    words::equal(context.tag(journal.message()).value, journal.tag())
}
