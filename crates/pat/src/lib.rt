// The calls for C, which the static library pat_c exports: format, read, write, check, wipe, a write's plan and the put of a tag, the write
// on an anchor in its place, the journalled write and the recovery. A slice passes as a pointer and a length. The anchor is 40 bytes: key,
// depth, root nonce and reserved nonce, the numbers in eight bytes each, big-endian; the write in place has it as a struct. A plan is 24
// bytes: block number, new root nonce and filled places, in the same way. A plan's messages have 656 bytes at every depth, a tag 16. Since
// C calls, the answer is one number: that of the refusal plus 256 times the node, 0 when accepted. It leaves out how often the cipher was
// called.
#![tactic(auto)]

ghost use Rattle.std.specs.Prelude.{[]};
ghost use Rattle.cmac.specs.Cmac.{cmac_of};
ghost use Rattle.tree.specs.Calls.{read, write, check, wipe, outcome};
ghost use Rattle.host_bytes.specs.Host.{Hosts, host_call, host_format, Codes};
ghost use Rattle.host_bytes.specs.Journal.{host_journalled, HostsJournalled, host_recovery};
ghost use Rattle.host_bytes.specs.Split.{host_plan, HostsPlan, host_put, HostsPut};

use host_bytes::{REFUSED_LENGTH, anchor, code};
use tree::{Anchor, BlockIndex, Error};

// Formats the card, and sets the anchor's nonces to 0.
#[unsafe(no_mangle)]
#[tactic(auto, unfolding(host_bytes::specs::Host::host_format))]
pub extern "C" fn pat_format(anchor: &mut [u8], card: &mut [u8]) -> u64
    ensures { Hosts (host_format anchor.old card.old) result anchor.new card.new [] }
{
    let Some(anchor) = anchor.as_mut_array() else {
        return REFUSED_LENGTH;
    };
    let given = anchor::of(anchor);
    let made = calls::format(given.key, given.depth, card).map_err(Error::from);
    anchor::settle(anchor, made);
    code::of(made)
}

// Reads a block into the buffer.
#[unsafe(no_mangle)]
#[tactic(auto, unfolding(host_bytes::specs::Host::host_call))]
pub extern "C" fn pat_read(anchor: &[u8], card: &[u8], index: u64, buffer: &mut [u8]) -> u64
    ensures { Hosts (host_call anchor.now card.now (read index buffer.old))
        result anchor.now card.now buffer.new }
{
    let Some(anchor) = anchor.as_array() else {
        return REFUSED_LENGTH;
    };
    let given = anchor::of(anchor);
    code::of(calls::read(given, card, BlockIndex(index), buffer).value)
}

// Writes a block, and puts the new nonces into the anchor.
#[unsafe(no_mangle)]
#[tactic(auto, unfolding(host_bytes::specs::Host::host_call))]
pub extern "C" fn pat_write(
    anchor: &mut [u8],
    card: &mut [u8],
    index: u64,
    block: &[u8],
    ranges: &mut [u8],
) -> u64
    ensures { Hosts
        (host_call anchor.old card.old (write index block.now ranges.old))
        result anchor.new card.new ranges.new }
{
    let Some(anchor) = anchor.as_mut_array() else {
        return REFUSED_LENGTH;
    };
    let given = anchor::of(anchor);
    let moved = calls::write(given, card, BlockIndex(index), block, ranges).value;
    anchor::settle(anchor, moved);
    code::of(moved)
}

// Checks every tag of the card.
#[unsafe(no_mangle)]
#[tactic(auto, unfolding(host_bytes::specs::Host::host_call))]
pub extern "C" fn pat_check(anchor: &[u8], card: &[u8]) -> u64
    ensures { Hosts (host_call anchor.now card.now check) result anchor.now card.now [] }
{
    let Some(anchor) = anchor.as_array() else {
        return REFUSED_LENGTH;
    };
    let given = anchor::of(anchor);
    code::of(calls::check(given, card).value)
}

// Empties the card under the same key, and puts the new nonces into the anchor.
#[unsafe(no_mangle)]
#[tactic(auto, unfolding(host_bytes::specs::Host::host_call))]
pub extern "C" fn pat_wipe(anchor: &mut [u8], card: &mut [u8]) -> u64
    ensures { Hosts (host_call anchor.old card.old wipe) result anchor.new card.new [] }
{
    let Some(anchor) = anchor.as_mut_array() else {
        return REFUSED_LENGTH;
    };
    let given = anchor::of(anchor);
    let wiped = calls::wipe(given, card).value;
    anchor::settle(anchor, wiped);
    code::of(wiped)
}

// The write for boot code, which has the anchor as a struct in memory of its own: accepted, it moves the anchor in its place.
#[unsafe(no_mangle)]
#[tactic(auto, using(host_bytes::proofs::Sizes::call))]
pub extern "C" fn pat_write_in_place(
    anchor: &mut Anchor,
    card: &mut [u8],
    index: u64,
    block: &[u8],
    ranges: &mut [u8],
) -> u64
    ensures { Codes
        (outcome (cmac_of anchor.old.key) anchor.old card.old
        (write index block.now ranges.old))
        result anchor.new card.new ranges.new }
{
    let answer = calls::write(*anchor, card, BlockIndex(index), block, ranges).value;
    if let Ok(moved) = answer {
        *anchor = moved;
    }
    code::of(answer)
}

// Plans a write whose tags come singly: puts its labels on the card, its ranges, the plan and the messages into their buffers, and the
// reserved nonce into the anchor.
#[unsafe(no_mangle)]
pub extern "C" fn pat_plan(
    anchor: &mut [u8],
    card: &mut [u8],
    index: u64,
    block: &[u8],
    ranges: &mut [u8],
    plan: &mut [u8],
    messages: &mut [u8],
) -> u64
    ensures { HostsPlan
        (host_plan anchor.old card.old index block.now ranges.old
        plan.old messages.old)
        result anchor.new plan.new card.new ranges.new messages.new }
{
    host_split::plan(anchor, card, index, block, ranges, plan, messages)
}

// Puts one tag of a plan on the card, and notes it in the plan. The last one puts the new root nonce into the anchor.
#[unsafe(no_mangle)]
pub extern "C" fn pat_put_tag(
    anchor: &mut [u8],
    plan: &mut [u8],
    card: &mut [u8],
    node: u64,
    tag: &[u8],
) -> u64
    ensures { HostsPut
        (host_put anchor.old plan.old card.old node tag.now)
        result anchor.new plan.new card.new }
{
    host_split::put_tag(anchor, plan, card, node, tag)
}

// Writes a block and fills the journal: the anchor that is stored first goes into `raised`, and the final nonces into the anchor.
#[unsafe(no_mangle)]
pub extern "C" fn pat_write_journalled(
    anchor: &mut [u8],
    raised: &mut [u8],
    card: &mut [u8],
    index: u64,
    block: &[u8],
    ranges: &mut [u8],
    journal: &mut [u8],
) -> u64
    ensures { HostsJournalled
        (host_journalled anchor.old raised.old card.old index block.now
        ranges.old journal.old)
        result anchor.new raised.new card.new ranges.new journal.new }
{
    host_journal::write(anchor, raised, card, index, block, ranges, journal)
}

// Brings the card to the anchor's root nonce where the journal is for that.
#[unsafe(no_mangle)]
pub extern "C" fn pat_recover(anchor: &[u8], card: &mut [u8], journal: &[u8]) -> u64
    ensures { Hosts (host_recovery anchor.now card.old journal.now) result anchor.now card.new [] }
{
    host_journal::recover(anchor, card, journal)
}
