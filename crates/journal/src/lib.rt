// The journal of a write: what is put into one, how its bytes are put back on a card, and which block's write it is of. Its tag is for the
// crates above. specs/ has the definitions.
#![tactic(auto)]

pub mod view;

ghost use Rattle.std.specs.Prelude.{◌≡◌, ℕ, ◌++◌, ◌+◌, ◌*◌, ◌^◌, ◌≤◌, ◌<◌, length, drop, IfSome, MatchOption};
ghost use Rattle.std.proofs.Math.Option.{none, some};
ghost use Rattle.std.proofs.lemmas.List.Edits.{sets};
ghost use Rattle.words.specs.Bytes.{part};
ghost use Rattle.tree.specs.Layout.{IsCard};
ghost use Rattle.tree.specs.Ranges.{range_of, ranges_of, encode};
ghost use Rattle.journal.specs.Journal.{gathered, scattered, message_length, journal_length, journal_message, block_of};

use tree::{BlockIndex, Depth, Entry, Node, Nonce, Path, numbers, ranges};
pub use view::{JournalView, put_tag};
use words::Packed;

// A range of a card.
#[derive(Clone, Copy)]
struct Span {
    start: usize,
    count: usize,
}

impl Span {
    // The range of a node's entry; `own` is the node of its level on the path.
    fn of(own: Node, entry: Entry) -> Span
        ensures start { result.start ≡ (range_of entry.depth.levels own.0 entry.node.0).start }
        ensures count { result.count ≡ (range_of entry.depth.levels own.0 entry.node.0).count }
    {
        if entry.node == own {
            Span {
                start: entry.offset(),
                count: entry.size() + 16,
            }
        } else {
            Span {
                start: entry.tag_offset(),
                count: 16,
            }
        }
    }
}

// Puts the bytes of that range at a place of the buffer, and tells where they end.
fn gather_entry(own: Node, entry: Entry, card: &[u8], buffer: &mut [u8], place: usize) -> usize
    requires card { IsCard entry.depth.levels card.now }
    requires room { place + (range_of entry.depth.levels own.0 entry.node.0).count ≤ length buffer.old }
    ensures filled { let range = range_of entry.depth.levels own.0 entry.node.0 in
        buffer.new ≡ sets buffer.old place (part card.now range.start range.count) }
    ensures end { result ≡ place + (range_of entry.depth.levels own.0 entry.node.0).count }
{
    let range = Span::of(own, entry);
    words::put(buffer, place, &card[range.start..range.start + range.count]);
    place + range.count
}

// Puts those of all of a write's ranges at a place of the buffer.
fn gather(path: Path, card: &[u8], buffer: &mut [u8], start: usize)
    requires card { IsCard path.depth.levels card.now }
    requires room { start + (40 * path.depth.levels + 56) ≤ length buffer.old }
    ensures { buffer.new ≡ sets buffer.old start (gathered (ranges_of path.depth.levels path.index.0) card.now) }
{
    let depth = path.depth;
    for level in 0..depth.levels {
        let place = start + (40 * level) as usize;
        let own = path.node(level + 1);
        let (lower, upper) = own.pair();
        let next = gather_entry(own, Entry { depth, node: lower }, card, buffer, place);
        gather_entry(own, Entry { depth, node: upper }, card, buffer, next);
    }
}

// Fills a journal for a write to a block, but for its tag: `root` is the new root nonce, and `card` the one that the write leaves.
pub fn fill(path: Path, root: Nonce, card: &[u8], journal: &mut [u8])
    requires card { IsCard path.depth.levels card.now }
    requires room { length journal.old ≡ journal_length path.depth.levels }
    ensures { journal.new ≡ journal_message path.depth.levels root.0 path.index.0 card.now
        ++ drop (message_length path.depth.levels) journal.old }
{
    let start = (8 + 16 * path.depth.levels) as usize;
    numbers::be(root.0).put(journal, 0);
    ranges::fill(path, &mut journal[8..]);
    gather(path, card, journal, start);
}

// Puts the bytes of a node's range back on the card from a place of a journal's new bytes, and tells where they end.
fn lay_entry(own: Node, entry: Entry, new: &[u8], place: usize, card: &mut [u8]) -> usize
    requires card { IsCard entry.depth.levels card.old }
    requires room { place + (range_of entry.depth.levels own.0 entry.node.0).count ≤ length new.now }
    ensures laid { let range = range_of entry.depth.levels own.0 entry.node.0 in
        card.new ≡ sets card.old range.start (part new.now place range.count) }
    ensures end { result ≡ place + (range_of entry.depth.levels own.0 entry.node.0).count }
{
    let range = Span::of(own, entry);
    let end = place + range.count;
    words::put(card, range.start, &new[place..end]);
    end
}

// Puts the new bytes of a journal into the ranges of a write to a block.
pub fn lay(path: Path, new: &[u8], card: &mut [u8])
    requires card { IsCard path.depth.levels card.old }
    requires new { length new.now ≡ 40 * path.depth.levels + 56 }
    ensures { card.new ≡ scattered (ranges_of path.depth.levels path.index.0) new.now card.old }
{
    let depth = path.depth;
    for level in 0..depth.levels {
        let place = (40 * level) as usize;
        let own = path.node(level + 1);
        let (lower, upper) = own.pair();
        let next = lay_entry(own, Entry { depth, node: lower }, new, place, card);
        lay_entry(own, Entry { depth, node: upper }, new, next, card);
    }
}

// The block that has this list of ranges if any has: where the lower leaf of the last two ranges, or its tag, starts tells it.
fn candidate(depth: Depth, list: &[u8]) -> BlockIndex
    requires deep { 1 ≤ depth.levels }
    requires list { length list.now ≡ 16 * depth.levels }
    ensures { (i : ℕ) → i < 2 ^ depth.levels → list.now ≡ encode (ranges_of depth.levels i) → result.0 ≡ i }
{
    let leaf = Entry {
        depth,
        node: Node(depth.leaves()),
    };
    let first = leaf.offset() as u64;
    let place = (16 * (depth.levels - 1)) as usize;
    let start = numbers::be(u32::at(list, place)) as u64;
    BlockIndex((start + 16).saturating_sub(first) / 80)
}

// The block whose write has this list of ranges, if any has.
pub fn block(depth: Depth, list: &[u8]) -> Option<BlockIndex>
    requires deep { 1 ≤ depth.levels }
    requires list { length list.now ≡ 16 * depth.levels }
    ensures found { MatchOption result (block_of depth.levels list.now ≡ none) (λ index. block_of depth.levels list.now ≡ some index.0) }
    ensures on_card { IfSome result (λ index. index.0 < 2 ^ depth.levels) }
{
    let index = candidate(depth, list);
    if depth.leaves() <= index.0 {
        return None;
    }
    let mut expected = [0u8; 256];
    ranges::fill(Path { depth, index }, &mut expected);
    if list == &expected[..list.len()] {
        Some(index)
    } else {
        None
    }
}
