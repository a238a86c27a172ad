// The ranges that a write reports.
ghost use Rattle.std.specs.Prelude.{◌≡◌, [], ◌∷◌, ◌++◌, ◌+◌, ◌*◌, ◌≤◌, length};
ghost use Rattle.std.proofs.lemmas.List.Edits.{sets};
ghost use Rattle.tree.specs.Numbers.{be};
ghost use Rattle.tree.specs.Ranges.{range_of, encode, listed};

use crate::{Entry, Node, Path, numbers};
use words::Packed;

// Puts one range at a place of the buffer.
#[tactic(auto, unfolding(crate::specs::Numbers::be))]
fn put_range(buffer: &mut [u8], place: usize, start: u32, count: u32)
    requires { place + 8 ≤ length buffer.old }
    ensures { buffer.new ≡ sets buffer.old place (be 4 start ++ be 4 count) }
{
    numbers::be(start).put(buffer, place);
    numbers::be(count).put(buffer, place + 4);
}

// Puts the range of a node's entry; `own` is the node of its level on the path.
#[tactic(auto, using(crate::proofs::LayoutLaws::small_entries), unfolding(crate::specs::Ranges::encode))]
fn put_entry(own: Node, entry: Entry, buffer: &mut [u8], place: usize)
    requires { place + 8 ≤ length buffer.old }
    ensures { buffer.new ≡ sets buffer.old place (encode (range_of entry.depth.levels own.0 entry.node.0 ∷ [])) }
{
    if entry.node == own {
        put_range(
            buffer,
            place,
            entry.offset() as u32,
            (entry.size() + 16) as u32,
        );
    } else {
        put_range(buffer, place, entry.tag_offset() as u32, 16);
    }
}

// All of a write to a block.
pub fn fill(path: Path, buffer: &mut [u8])
    requires { 16 * path.depth.levels ≤ length buffer.old }
    ensures { buffer.new ≡ listed path.depth.levels path.index.0 buffer.old }
{
    let depth = path.depth;
    for level in 0..depth.levels {
        let place = (16 * level) as usize;
        let own = path.node(level + 1);
        let (lower, upper) = own.pair();
        put_entry(own, Entry { depth, node: lower }, buffer, place);
        put_entry(own, Entry { depth, node: upper }, buffer, place + 8);
    }
}
