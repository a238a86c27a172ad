// The subkeys are the cipher of the zero block, doubled once and twice.
ghost use Rattle.std.specs.Prelude.{◌≡◌, cond, ◌<◌, ltb};
ghost use Rattle.words.specs.Words.{bytes, block_of};
ghost use Rattle.cmac.specs.Cmac.{double};
ghost use Rattle.cmac.specs.Shifted.{shifted_up};

use words::{Block, Word};

// A block doubled: its halves as numbers whose highest byte is the first one, shifted left.
pub fn doubled(block: Block) -> Block
    ensures { block_of result ≡ double (block_of block) }
{
    let head = block.head.reversed();
    let tail = block.tail.reversed();
    Block {
        head: shifted(head, tail / 9223372036854775808).reversed(),
        tail: (shifted(tail, 0) ^ carry(head)).reversed(),
    }
}

// A number shifted left by one bit, with the bit that comes in.
fn shifted(word: u64, bit: u64) -> u64
    requires { bit < 2 }
    ensures { bytes 8 result ≡ shifted_up bit (bytes 8 word) }
{
    word % 9223372036854775808 * 2 + bit
}

// What the bit that leaves a number adds to the last byte.
fn carry(word: u64) -> u64
    ensures { result ≡ cond (ltb word 0x8000000000000000) 0 0x87 }
{
    if word < 9223372036854775808 { 0 } else { 0x87 }
}
