// Bytes in machine words, the first byte lowest.
#![tactic(auto)]

ghost use Rattle.std.specs.Prelude.{◌≡◌, refl, ℕ, List, ◌++◌, reverse, ◌+◌, ◌≤◌, ◌<◌, length};
ghost use Rattle.std.proofs.lemmas.List.Edits.{sets};
ghost use Rattle.words.specs.Bytes.{at, part, same, xor_block};
ghost use Rattle.words.specs.Words.{bytes, state_of, block_of};

use std::ops::BitXor;

// A block of 16 bytes: its first eight and its last eight, each in a word.
#[derive(Clone, Copy, PartialEq, Eq)]
pub struct Block {
    pub head: u64,
    pub tail: u64,
}

// The same in four words; a state of the cipher has a column in each.
#[derive(Clone, Copy)]
pub struct Columns {
    pub c0: u32,
    pub c1: u32,
    pub c2: u32,
    pub c3: u32,
}

// What is read from a string, and put into one, as so many bytes from one of them on.
pub trait Packed: Sized {
    ghost size: { ℕ };

    ghost packed: { Self → List ℕ };

    fn at(string: &[u8], start: usize) -> Self
        requires { start + size ≤ length string.now }
        ensures { packed result ≡ part string.now start size };

    fn put(self, string: &mut [u8], start: usize)
        requires { start + size ≤ length string.old }
        ensures { string.new ≡ sets string.old start (packed self) };

    // Each value has that many bytes.
    ghost sized: { (x : Self) → length (packed x) ≡ size };
}

// A number whose bytes can be turned round.
pub trait Word: Packed {
    ghost number: { Self → ℕ };

    // The same with the last byte first.
    fn reversed(self) -> Self
        ensures { Self.packed result ≡ reverse (Self.packed self) };

    ghost numbered: { (x : Self) → Self.packed x ≡ bytes Self.size (number x) };
}

impl Packed for u32 {
    ghost size = { 4 };

    ghost packed = { bytes 4 };

    ghost sized = { λ x. refl };

    fn at(string: &[u8], start: usize) -> u32 {
        u32::from_le_bytes([
            string[start],
            string[start + 1],
            string[start + 2],
            string[start + 3],
        ])
    }

    fn put(self, string: &mut [u8], start: usize) {
        put(string, start, &self.to_le_bytes());
    }
}

impl Packed for u64 {
    ghost size = { 8 };

    ghost packed = { bytes 8 };

    ghost sized = { λ x. refl };

    fn at(string: &[u8], start: usize) -> u64 {
        double_word(u32::at(string, start), u32::at(string, start + 4))
    }

    fn put(self, string: &mut [u8], start: usize) {
        put(string, start, &self.to_le_bytes());
    }
}

impl Packed for Block {
    ghost size = { 16 };

    ghost packed = { block_of };

    ghost sized = { λ x. refl };

    fn at(string: &[u8], start: usize) -> Block {
        Block {
            head: u64::at(string, start),
            tail: u64::at(string, start + 8),
        }
    }

    fn put(self, string: &mut [u8], start: usize) {
        self.head.put(string, start);
        self.tail.put(string, start + 8);
    }
}

impl Packed for Columns {
    ghost size = { 16 };

    ghost packed = { state_of };

    ghost sized = { λ x. refl };

    fn at(string: &[u8], start: usize) -> Columns {
        Columns {
            c0: u32::at(string, start),
            c1: u32::at(string, start + 4),
            c2: u32::at(string, start + 8),
            c3: u32::at(string, start + 12),
        }
    }

    fn put(self, string: &mut [u8], start: usize) {
        self.c0.put(string, start);
        self.c1.put(string, start + 4);
        self.c2.put(string, start + 8);
        self.c3.put(string, start + 12);
    }
}

impl Word for u32 {
    ghost number = { λ x. x };

    ghost numbered = { λ x. refl };

    fn reversed(self) -> u32 {
        self.swap_bytes()
    }
}

impl Word for u64 {
    ghost number = { λ x. x };

    ghost numbered = { λ x. refl };

    fn reversed(self) -> u64 {
        self.swap_bytes()
    }
}

// A byte of a word.
pub fn byte(word: u32, index: usize) -> u8
    requires { index < 4 }
    ensures { result ≡ at (bytes 4 word) index }
{
    (word >> (8 * index) & 0xff) as u8
}

// Two words in one.
pub fn double_word(low: u32, high: u32) -> u64
    ensures { bytes 8 result ≡ bytes 4 low ++ bytes 4 high }
{
    low as u64 + high as u64 * 4294967296
}

// Two blocks, byte by byte.
impl BitXor for Block {
    type Output = Block;

    ghost bitxor_gives = { λ left right result. block_of result ≡ xor_block (block_of left) (block_of right) };

    fn bitxor(self, right: Block) -> Block {
        Block {
            head: self.head ^ right.head,
            tail: self.tail ^ right.tail,
        }
    }
}

// The same of two states, column by column.
impl BitXor for Columns {
    type Output = Columns;

    ghost bitxor_gives = { λ left right result. state_of result ≡ xor_block (state_of left) (state_of right) };

    fn bitxor(self, right: Columns) -> Columns {
        Columns {
            c0: self.c0 ^ right.c0,
            c1: self.c1 ^ right.c1,
            c2: self.c2 ^ right.c2,
            c3: self.c3 ^ right.c3,
        }
    }
}

// A block as columns, columns as a block, and a block as its 16 bytes.
impl From<Block> for Columns {
    ghost from_gives = { λ block result. state_of result ≡ block_of block };

    fn from(block: Block) -> Columns {
        Columns {
            c0: (block.head % 4294967296) as u32,
            c1: (block.head / 4294967296) as u32,
            c2: (block.tail % 4294967296) as u32,
            c3: (block.tail / 4294967296) as u32,
        }
    }
}

impl From<Columns> for Block {
    ghost from_gives = { λ columns result. block_of result ≡ state_of columns };

    fn from(columns: Columns) -> Block {
        Block {
            head: double_word(columns.c0, columns.c1),
            tail: double_word(columns.c2, columns.c3),
        }
    }
}

impl From<Block> for [u8; 16] {
    ghost from_gives = { λ block result. result ≡ block_of block };

    fn from(block: Block) -> [u8; 16] {
        let mut bytes = [0u8; 16];
        block.put(&mut bytes, 0);
        bytes
    }
}

// Whether two blocks have the same bytes. The derived `==` says it of the words; this says it of the bytes, as the definitions do.
pub fn equal(left: Block, right: Block) -> bool
    ensures { result ≡ same (block_of left) (block_of right) }
{
    left == right
}

// Puts another string into a string from one of its bytes on. By a loop, which becomes memcpy: `copy_from_slice` becomes memmove here, a
// name more that the archives for C would need.
pub fn put(string: &mut [u8], start: usize, piece: &[u8])
    requires { start + length piece.now ≤ length string.old }
    ensures { string.new ≡ sets string.old start piece.now }
{
    for i in 0..piece.len() {
        string[start + i] = piece[i];
    }
}
