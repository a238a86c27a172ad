// The blocks of a message, the last one padded where it is short and joined with its subkey.
ghost use Rattle.std.specs.Prelude.{cond, [], ◌∷◌, ◌≡◌, ◌+◌, ◌-◌, ◌*◌, ◌≤◌, ◌<◌, ltb, length};
ghost use Rattle.words.specs.Bytes.{part};
ghost use Rattle.words.specs.Words.{bytes, block_of};
ghost use Rattle.cmac.specs.Cmac.{blocks, message_block, padding, last_block};

use words::{Block, Packed};

// How many blocks come before the last one.
pub fn before_last(message: &[u8]) -> usize
    ensures { result ≡ blocks (length message.now) - 1 }
{
    let n = message.len();
    if n == 0 { 0 } else { (n - 1) / 16 }
}

// What the cipher is to take at a turn: the block of that index, or the last one.
pub fn input(message: &[u8], last: Block, count: usize, index: usize) -> Block
    requires { (index ≤ count) × (16 * count ≤ length message.now) }
    ensures { block_of result ≡ cond (ltb index count) (message_block message.now index) (block_of last) }
{
    if index < count {
        return Block::at(message, 16 * index);
    }
    last
}

// The last block, which comes after `count` others, joined with its subkey.
pub fn last(subkeys: &[u8; 32], message: &[u8], count: usize) -> Block
    requires { count ≡ blocks (length message.now) - 1 }
    ensures { block_of result
        ≡ last_block (part subkeys.now 0 16) (part subkeys.now 16 16) message.now }
{
    let start = 16 * count;
    if start + 16 == message.len() {
        return Block::at(message, start) ^ Block::at(subkeys, 0);
    }
    padded_block(message, start) ^ Block::at(subkeys, 16)
}

// The short block of a message, padded: each byte brings the bit behind it, for a plain copy becomes memcpy, which an archive of CMAC alone
// does without. Inlined, it makes the loop over the blocks slower.
#[inline(never)]
fn padded_block(message: &[u8], start: usize) -> Block
    requires { (start ≤ length message.now) × (length message.now < start + 16) }
    ensures { block_of result ≡ padding (part message.now start 16) }
{
    let rest = &message[start..];
    let mut bytes = [0u8; 16];
    bytes[0] = 0x80;
    for i in 0..rest.len() {
        bytes[i] = rest[i];
        bytes[i + 1] = 0x80;
    }
    Block::at(&bytes, 0)
}
