// The anchor as bytes.
ghost use Rattle.std.specs.Prelude.{◌≡◌, cond, ◌++◌, ◌+◌, ◌≤◌, eqb, length, take};
ghost use Rattle.std.specs.Result.{result_unwrap_or};
ghost use Rattle.words.specs.Bytes.{part};
ghost use Rattle.tree.specs.Numbers.{be8};
ghost use Rattle.tree.specs.Answer.{is_whole, answer_in};
ghost use Rattle.host_bytes.specs.Host.{anchor_of, with_root, with_reserved, with_nonces, number};

use crate::ANCHOR_BYTES;
use tree::{Anchor, Error, Nonce, numbers};
use words::{Block, Packed};

// The number in eight bytes from one of them on.
pub fn number_at(bytes: &[u8], start: usize) -> u64
    requires { start + 8 ≤ length bytes.now }
    ensures { result ≡ number (part bytes.now start 8) }
{
    numbers::be(u64::at(bytes, start))
}

// The anchor that the bytes stand for. A function, since a `From` would be another crate's trait between types of other crates.
#[tactic(auto, unfolding(crate::specs::Host::anchor_of))]
pub fn of(bytes: &[u8; ANCHOR_BYTES]) -> Anchor
    ensures { result ≡ anchor_of bytes.now }
{
    Anchor {
        key: Block::at(bytes, 0).into(),
        depth: number_at(bytes, 16),
        root: Nonce(number_at(bytes, 24)),
        reserved: Nonce(number_at(bytes, 32)),
    }
}

// Puts a root nonce into the bytes.
pub fn put_root(bytes: &mut [u8; ANCHOR_BYTES], root: Nonce)
    ensures { bytes.new ≡ with_root bytes.old root.0 }
{
    numbers::be(root.0).put(bytes, 24);
}

// The same where the root nonce has moved from another.
pub fn put_moved(bytes: &mut [u8; ANCHOR_BYTES], from: Nonce, root: Nonce)
    ensures { bytes.new ≡ cond (eqb root.0 from.0) bytes.old (with_root bytes.old root.0) }
{
    if root != from {
        put_root(bytes, root);
    }
}

// Puts a reserved nonce into the bytes.
pub fn put_reserved(bytes: &mut [u8; ANCHOR_BYTES], reserved: Nonce)
    ensures { bytes.new ≡ with_reserved bytes.old reserved.0 }
{
    numbers::be(reserved.0).put(bytes, 32);
}

// Puts both nonces of a call that moves the anchor, where it is accepted.
pub fn settle(bytes: &mut [u8; ANCHOR_BYTES], moved: Result<Anchor, Error>)
    ensures { bytes.new ≡ cond (is_whole (answer_in moved))
        (with_nonces bytes.old (result_unwrap_or moved (anchor_of bytes.old))) bytes.old }
{
    if let Ok(anchor) = moved {
        put_reserved(bytes, anchor.reserved);
        put_root(bytes, anchor.root);
    }
}
