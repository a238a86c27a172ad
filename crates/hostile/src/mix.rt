// Cards with two entries of an older one.
ghost use Rattle.std.specs.Prelude.{◌≡◌, length};
ghost use Rattle.tree.specs.Layout.{card_length};

use steps::levels::LONGEST;
use steps::{Left, Levels, Turn};
use tree::{BlockIndex, Entry, Node};

// What is called on the mixed card.
#[derive(Clone, Copy)]
enum Call {
    Read,
    Check,
    Write,
}

// Mixes the card, and reads, checks or writes what comes of it, which becomes the card where a write is accepted. Two entries that are
// drawn are the old ones, each a label and its tag. The block may be any, so the card comes without one.
#[tactic(auto, using(tree::proofs::LayoutLaws::small_entries))]
pub fn step(
    turn: &mut Turn,
    levels: Levels,
    index: BlockIndex,
    card: &mut [u8],
    copy: &[u8],
) -> Left
    requires card { length card.old ≡ card_length levels.depth.levels }
    requires copy { length copy.now ≡ card_length levels.depth.levels }
{
    let mut space = [0u8; LONGEST];
    let mixed = &mut space[..levels.bytes()];
    mixed.copy_from_slice(card);
    for _ in 0..2 {
        let entry = Entry {
            depth: levels.depth,
            node: Node(2 + turn.draw.pick(2 * levels.blocks() - 2)),
        };
        let start = entry.offset();
        let end = entry.tag_offset() + 16;
        mixed[start..end].copy_from_slice(&copy[start..end]);
    }
    match turn.draw.pick_of(&[Call::Read, Call::Check, Call::Write]) {
        Call::Read => turn.read(mixed, index, 64),
        Call::Check => turn.check(mixed),
        Call::Write => {
            let left = turn.write(mixed, index, 101);
            if left.answer.value.is_ok() {
                card.copy_from_slice(mixed);
            }
            left
        }
    }
}
