// Calls that a limit refuses.
use steps::{Card, Left, Levels, Turn, short};
use tree::{Anchor, BlockIndex, Nonce};

// What is too short for a read or a write, or too high.
#[derive(Clone, Copy)]
enum Bad {
    Card,
    Block,
    Buffer,
    Ranges,
}

// A card or a buffer that is too short, or a block past the last.
pub fn step(turn: &mut Turn, card: &mut Card) -> Left {
    let target = card.target;
    let index = target.index;
    let bads = [Bad::Card, Bad::Block, Bad::Buffer, Bad::Ranges];
    match turn.draw.pick_of(&bads) {
        Bad::Card => short::by_one(card.bytes, |card| turn.read(card, index, 64)),
        Bad::Block => {
            let past = BlockIndex(target.levels.blocks() + index.0);
            turn.read(card.bytes, past, 64)
        }
        Bad::Buffer => turn.read(card.bytes, index, 63),
        Bad::Ranges => turn.write(card.bytes, index, target.levels.short_ranges()),
    }
}

// What a wipe is refused for.
#[derive(Clone, Copy)]
enum BadWipe {
    Card,
    Depth,
    RootNonce,
    NoncesSpent,
}

// A wipe of a card that is too short, or under another anchor: with a depth past the last, with a root nonce that is no multiple of the
// depth, or with a reserved one after which none are left. The anchor stays.
pub fn wipe(turn: &mut Turn, levels: Levels, card: &mut [u8]) -> Left {
    let bad = turn.draw.pick_of(&[
        BadWipe::Card,
        BadWipe::Depth,
        BadWipe::RootNonce,
        BadWipe::NoncesSpent,
    ]);
    let levels = levels.depth.levels;
    let mut other = *turn;
    match bad {
        BadWipe::Card => return short::by_one(card, |card| other.wipe(card)),
        BadWipe::Depth => other.anchor.depth = 16 + levels,
        BadWipe::RootNonce => other.anchor = beside(levels, other.anchor),
        BadWipe::NoncesSpent => other.anchor.reserved = Nonce(u64::MAX - u64::MAX % levels),
    }
    other.wipe(card)
}

// With a root nonce beside its own, which is no multiple of the depth. At depth 1, where every number is one, the reserved nonce is the
// last.
fn beside(levels: u64, anchor: Anchor) -> Anchor {
    if levels == 1 {
        Anchor {
            reserved: Nonce(u64::MAX),
            ..anchor
        }
    } else {
        Anchor {
            root: Nonce(anchor.root.0 ^ 1),
            ..anchor
        }
    }
}
