// The parts of a journal.
ghost use Rattle.std.specs.Prelude.{◌≡◌, ◌++◌, ◌+◌, ◌*◌, length, take};
ghost use Rattle.words.specs.Bytes.{same};
ghost use Rattle.words.specs.Words.{block_of};
ghost use Rattle.tree.specs.Numbers.{be8};
ghost use Rattle.journal.specs.Journal.{message_length, journal_length, message_of, tag_of, list_of, new_bytes};

use tree::{Depth, Nonce, numbers};
use words::{Block, Packed};

// A journal with its length, for a card of that depth.
#[derive(Clone, Copy)]
pub struct JournalView<'a> {
    pub depth: Depth,
    pub bytes: &'a [u8],
    pub ghost full: { length bytes.now ≡ journal_length depth.levels },
}

impl<'a> JournalView<'a> {
    // Whether its root nonce is that one.
    pub fn is_for(&self, root: Nonce) -> bool
        ensures { result ≡ same (take 8 self.now.bytes.now) (be8 root.0) }
    {
        u64::at(self.bytes, 0) == numbers::be(root.0)
    }

    // What its tag is made of.
    pub fn message(&self) -> &'a [u8]
        ensures { result.now ≡ message_of self.now.depth.levels self.now.bytes.now }
    {
        &self.bytes[..message_len(self.depth)]
    }

    // Its tag.
    pub fn tag(&self) -> Block
        ensures { block_of result ≡ tag_of self.now.depth.levels self.now.bytes.now }
    {
        Block::at(self.bytes, message_len(self.depth))
    }

    // Its ranges.
    pub fn list(&self) -> &'a [u8]
        ensures list { result.now ≡ list_of self.now.depth.levels self.now.bytes.now }
        ensures size { length result.now ≡ 16 * self.now.depth.levels }
    {
        let end = (8 + 16 * self.depth.levels) as usize;
        &self.bytes[8..end]
    }

    // Their new bytes.
    pub fn new_bytes(&self) -> &'a [u8]
        ensures bytes { result.now ≡ new_bytes self.now.depth.levels self.now.bytes.now }
        ensures size { length result.now ≡ 40 * self.now.depth.levels + 56 }
    {
        let start = (8 + 16 * self.depth.levels) as usize;
        &self.bytes[start..message_len(self.depth)]
    }
}

// How many bytes the message of a journal has, so where its tag begins.
fn message_len(depth: Depth) -> usize
    ensures { result ≡ message_length depth.levels }
{
    (56 * depth.levels + 64) as usize
}

// Puts the tag of a journal behind its message.
pub fn put_tag(depth: Depth, tag: Block, journal: &mut [u8])
    requires { length journal.old ≡ journal_length depth.levels }
    ensures { journal.new ≡ message_of depth.levels journal.old ++ block_of tag }
{
    tag.put(journal, message_len(depth));
}
