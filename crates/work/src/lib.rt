// What each call does once its limits are passed. The context is made once; every check comes before the first byte that changes. The count
// is that of the context and of every tag made. Each asks that its own limits are passed by all that it is given: a type for this fact would
// hold for one call, and be made in one place and opened in one.
#![tactic(auto)]

ghost use Rattle.std.specs.Prelude.{◌≡◌, [], map, ◌+◌};
ghost use Rattle.std.specs.Result.{result_unwrap_or};
ghost use Rattle.std.proofs.Math.Option.{none};
ghost use Rattle.cmac.specs.Cmac.{cmac_of};
ghost use Rattle.cmac.specs.Context.{ContextOf};
ghost use Rattle.cmac.specs.Traced.{subkeys_count, cmac_count};
ghost use Rattle.tree.specs.Layout.{IsCard};
ghost use Rattle.tree.specs.Nodes.{all_nodes};
ghost use Rattle.tree.specs.Labels.{message, blank_labels};
ghost use Rattle.tree.specs.Card.{blanked};
ghost use Rattle.tree.specs.Limits.{first_failing};
ghost use Rattle.tree.specs.Answer.{Whole, answer_in};
ghost use Rattle.tree.specs.Calls.{Reports, read, write, check, wipe, limits, total, outcome};

use card::{BlockView, CardView, walk};
use cmac::Context;
use cmac::counted::Counted;
use stamp::NewBlock;
use tree::{Anchor, BlockIndex, Error, ranges};

// Makes an empty card for the anchor that a format or a wipe gives. `IsCard` is asked as in stamp, which writes the card.
pub fn blank(anchor: Anchor, card: &mut [u8]) -> u64
    requires { IsCard anchor.depth card.old }
    ensures card_after { card.new ≡ blanked (cmac_of anchor.key) anchor.depth anchor.root.0 card.old }
    ensures value { result ≡ subkeys_count anchor.key
        + total (cmac_count anchor.key) (map (message (blank_labels anchor.depth anchor.root.0)) (all_nodes anchor.depth)) }
{
    let context = Context::new(anchor.key);
    context.count + stamp::blank(&context, anchor.card_depth(), anchor.root, card)
}

// Read.
pub fn read(
    anchor: Anchor,
    card: &[u8],
    index: BlockIndex,
    buffer: &mut [u8],
) -> Counted<Result<(), Error>>
    requires { first_failing (limits anchor card.now (read index.0 buffer.old)) ≡ none }
    ensures { Reports (subkeys_count anchor.key) (cmac_count anchor.key)
        (outcome (cmac_of anchor.key) anchor card.now (read index.0 buffer.old))
        (answer_in result.value) result.count anchor card.now buffer.new }
{
    let block = BlockView::of(anchor, card, index);
    let context = Context::new(anchor.key);
    let found = walk::path(&context, &block);
    if found.value.is_ok() {
        words::put(buffer, 0, block.bytes());
    }
    Counted {
        count: context.count + found.count,
        ..found
    }
}

// Write.
pub fn write(
    anchor: Anchor,
    card: &mut [u8],
    index: BlockIndex,
    block: &[u8],
    ranges: &mut [u8],
) -> Counted<Result<Anchor, Error>>
    requires { first_failing (limits anchor card.old (write index.0 block.now ranges.old)) ≡ none }
    ensures { Reports (subkeys_count anchor.key) (cmac_count anchor.key)
        (outcome (cmac_of anchor.key) anchor card.old (write index.0 block.now ranges.old))
        (answer_in result.value) result.count (result_unwrap_or result.value anchor) card.new ranges.new }
{
    let context = Context::new(anchor.key);
    write_under(&context, anchor, card, index, block, ranges)
}

// The same under the context of the anchor's key, which the count has in it.
pub fn write_under(
    context: &Context,
    anchor: Anchor,
    card: &mut [u8],
    index: BlockIndex,
    block: &[u8],
    ranges: &mut [u8],
) -> Counted<Result<Anchor, Error>>
    requires key { ContextOf anchor.key context.now }
    requires limits { first_failing (limits anchor card.old (write index.0 block.now ranges.old)) ≡ none }
    ensures { Reports (subkeys_count anchor.key) (cmac_count anchor.key)
        (outcome (cmac_of anchor.key) anchor card.old (write index.0 block.now ranges.old))
        (answer_in result.value) result.count (result_unwrap_or result.value anchor) card.new ranges.new }
{
    let seen = BlockView::of(anchor, card, index);
    let path = seen.path();
    let found = walk::pairs(context, &seen);
    let count = context.count + found.count;
    if let Err(error) = found.value {
        return Counted {
            value: Err(error),
            count,
        };
    }
    let new = NewBlock {
        path,
        last: anchor.reserved,
        bytes: block,
    };
    let tagged = new.stamp(context, card);
    ranges::fill(path, ranges);
    Counted {
        value: Ok(anchor.renew()),
        count: count + tagged,
    }
}

// Check.
pub fn check(anchor: Anchor, card: &[u8]) -> Counted<Result<(), Error>>
    requires { first_failing (limits anchor card.now check) ≡ none }
    ensures { Reports (subkeys_count anchor.key) (cmac_count anchor.key)
        (outcome (cmac_of anchor.key) anchor card.now check)
        (answer_in result.value) result.count anchor card.now [] }
{
    let context = Context::new(anchor.key);
    let found = walk::all(&context, &CardView::of(anchor, card));
    Counted {
        count: context.count + found.count,
        ..found
    }
}

// Wipe.
pub fn wipe(anchor: Anchor, card: &mut [u8]) -> Counted<Anchor>
    requires { first_failing (limits anchor card.old wipe) ≡ none }
    ensures { Reports (subkeys_count anchor.key) (cmac_count anchor.key)
        (outcome (cmac_of anchor.key) anchor card.old wipe)
        Whole result.count result.value card.new [] }
{
    let wiped = anchor.renew();
    let count = blank(wiped, card);
    Counted {
        value: wiped,
        count,
    }
}
