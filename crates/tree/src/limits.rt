// The limits, each as a test of its own, by document 01's numbers. A comment says what is passed.
#![tactic(auto, unfolding(crate::specs::Limits::first_failing))]

ghost use Rattle.std.specs.Prelude.{◌≡◌, cond, [], ◌∷◌, ◌++◌, ◌≤◌, Ok, Err};
ghost use Rattle.tree.specs.Limits.{depth_limit, nonce_limit, card_limit, block_limit, length_limit, range_limit, spent_limit};
ghost use Rattle.tree.specs.Tests.{tested};
ghost use Rattle.tree.specs.Calls.{first_limits, write_limits};

use crate::{Anchor, BlockIndex, Depth, Nonce, Refusal};

// What a test answers.
fn unless(fails: bool, refusal: Refusal) -> Result<(), Refusal>
    ensures { result ≡ cond fails (Err refusal) (Ok tt) }
{
    if fails { Err(refusal) } else { Ok(()) }
}

// 1: the depth is 1 to 16.
pub fn depth(depth: u64) -> Result<(), Refusal>
    ensures { result ≡ tested (depth_limit depth ∷ []) }
{
    unless(depth == 0 || 16 < depth, Refusal::Depth)
}

// 2: the root nonce and the reserved one are multiples of the depth, and the reserved one is not below.
pub fn root_nonce(depth: u64, root: Nonce, reserved: Nonce) -> Result<(), Refusal>
    requires { 1 ≤ depth }
    ensures { result ≡ tested (nonce_limit depth root.0 reserved.0 ∷ []) }
{
    unless(
        root.0 % depth != 0 || reserved.0 % depth != 0 || reserved.0 < root.0,
        Refusal::RootNonce,
    )
}

// 3: the card has its length.
pub fn card_length(depth: Depth, len: usize) -> Result<(), Refusal>
    ensures { result ≡ tested (card_limit depth.levels len ∷ []) }
{
    unless(len as u64 != 104 * depth.leaves() - 48, Refusal::CardLength)
}

// 1, 2 and 3 in a row, with which every call after format begins. `len` is the card's length.
pub fn first(anchor: Anchor, len: usize) -> Result<(), Refusal>
    ensures { result ≡ tested (first_limits anchor len) }
{
    depth(anchor.depth)?;
    root_nonce(anchor.depth, anchor.root, anchor.reserved)?;
    card_length(anchor.card_depth(), len)
}

// 4: there is such a block.
pub fn block_number(depth: Depth, index: BlockIndex) -> Result<(), Refusal>
    ensures { result ≡ tested (block_limit depth.levels index.0 ∷ []) }
{
    unless(depth.leaves() <= index.0, Refusal::BlockNumber)
}

// 5: a read buffer or a new block has 64 bytes.
pub fn block_length(len: usize) -> Result<(), Refusal>
    ensures { result ≡ tested (length_limit len ∷ []) }
{
    unless(len != 64, Refusal::BlockLength)
}

// 6: the range buffer has room.
pub fn range_length(depth: Depth, len: usize) -> Result<(), Refusal>
    ensures { result ≡ tested (range_limit depth.levels len ∷ []) }
{
    unless((len as u64) < 16 * depth.levels, Refusal::RangeLength)
}

// 7: the nonces after the last one reserved suffice for one more write or wipe.
pub fn nonces_spent(depth: u64, last: Nonce) -> Result<(), Refusal>
    ensures { result ≡ tested (spent_limit depth last.0 ∷ []) }
{
    unless(u64::MAX - depth < last.0, Refusal::NoncesSpent)
}

// 4 to 7 in a row, which a write tests behind the first. `block` and `ranges` are the lengths of the new block and of the range buffer.
pub fn write_rest(
    anchor: Anchor,
    index: BlockIndex,
    block: usize,
    ranges: usize,
) -> Result<(), Refusal>
    requires { anchor.depth ≤ 16 }
    ensures { result ≡ tested (write_limits anchor index.0 block ranges) }
{
    let depth = anchor.card_depth();
    block_number(depth, index)?;
    block_length(block)?;
    range_length(depth, ranges)?;
    nonces_spent(anchor.depth, anchor.reserved)
}

// 1 to 7 in a row, as a write and a plan test them. `len` is the card's length.
pub fn write(
    anchor: Anchor,
    len: usize,
    index: BlockIndex,
    block: usize,
    ranges: usize,
) -> Result<(), Refusal>
    ensures { result ≡ tested (first_limits anchor len ++ write_limits anchor index.0 block ranges) }
{
    first(anchor, len)?;
    write_rest(anchor, index, block, ranges)
}
