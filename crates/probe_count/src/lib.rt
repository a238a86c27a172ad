// The calls' counts, for tests in other languages. A slice passes as a pointer and a length. Each function makes the call with the anchor's
// four parts and answers its count, a bare number since C calls it; a key that has not 16 bytes gets 0, and then it changes nothing; so do
// messages that have not 656.
#![tactic(auto)]

ghost use Rattle.std.specs.Prelude.{◌≡◌, []};
ghost use Rattle.tree.specs.Calls.{read, write, check, wipe};
ghost use Rattle.probe_count.specs.Counted.{anchor_of, Counted, CountedPlan};

use plan::MESSAGE_BYTES;
use tree::{Anchor, BlockIndex, Nonce};

// A read's.
#[unsafe(no_mangle)]
pub extern "C" fn probe_count_read(
    key: &[u8],
    depth: u64,
    root: u64,
    reserved: u64,
    card: &[u8],
    index: u64,
    buffer: &mut [u8],
) -> u64
    ensures { Counted key.now depth root reserved card.now (read index buffer.old)
        result card.now buffer.new }
{
    let Some(key) = key.as_array() else {
        return 0;
    };
    calls::read(
        anchor(key, depth, root, reserved),
        card,
        BlockIndex(index),
        buffer,
    )
    .count
}

// A write's.
#[unsafe(no_mangle)]
pub extern "C" fn probe_count_write(
    key: &[u8],
    depth: u64,
    root: u64,
    reserved: u64,
    card: &mut [u8],
    index: u64,
    block: &[u8],
    ranges: &mut [u8],
) -> u64
    ensures { Counted key.now depth root reserved card.old (write index block.now ranges.old)
        result card.new ranges.new }
{
    let Some(key) = key.as_array() else {
        return 0;
    };
    calls::write(
        anchor(key, depth, root, reserved),
        card,
        BlockIndex(index),
        block,
        ranges,
    )
    .count
}

// A check's.
#[unsafe(no_mangle)]
pub extern "C" fn probe_count_check(
    key: &[u8],
    depth: u64,
    root: u64,
    reserved: u64,
    card: &[u8],
) -> u64
    ensures { Counted key.now depth root reserved card.now check result card.now [] }
{
    let Some(key) = key.as_array() else {
        return 0;
    };
    calls::check(anchor(key, depth, root, reserved), card).count
}

// A wipe's.
#[unsafe(no_mangle)]
pub extern "C" fn probe_count_wipe(
    key: &[u8],
    depth: u64,
    root: u64,
    reserved: u64,
    card: &mut [u8],
) -> u64
    ensures { Counted key.now depth root reserved card.old wipe result card.new [] }
{
    let Some(key) = key.as_array() else {
        return 0;
    };
    calls::wipe(anchor(key, depth, root, reserved), card).count
}

// A plan's. A buffer for its messages that has not their room gets 0 too.
#[unsafe(no_mangle)]
pub extern "C" fn probe_count_plan(
    key: &[u8],
    depth: u64,
    root: u64,
    reserved: u64,
    card: &mut [u8],
    index: u64,
    block: &[u8],
    ranges: &mut [u8],
    messages: &mut [u8],
) -> u64
    ensures { CountedPlan key.now depth root reserved card.old index block.now ranges.old
        messages.old result card.new ranges.new messages.new }
{
    if let Some(key) = key.as_array()
        && let Some(messages) = messages.as_mut_array::<MESSAGE_BYTES>()
    {
        let anchor = anchor(key, depth, root, reserved);
        split::plan(anchor, card, BlockIndex(index), block, ranges, messages).count
    } else {
        0
    }
}

// The anchor of its parts.
fn anchor(key: &[u8; 16], depth: u64, root: u64, reserved: u64) -> Anchor
    ensures { result ≡ anchor_of key.now depth root reserved }
{
    Anchor {
        key: *key,
        depth,
        root: Nonce(root),
        reserved: Nonce(reserved),
    }
}
