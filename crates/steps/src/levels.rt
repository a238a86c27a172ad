// The cards that histories run on.
ghost use Rattle.std.specs.Prelude.{◌≡◌, ◌+◌, ◌*◌, ◌^◌, ◌≤◌, ◌<◌, length};
ghost use Rattle.tree.specs.Layout.{card_length};

use tree::{BlockIndex, Depth};

// How many bytes the longest card has.
pub const LONGEST: usize = 6608;

// A depth from 1 to 6.
#[derive(Clone, Copy)]
pub struct Levels {
    pub depth: Depth,
    pub ghost deep: { 1 ≤ depth.levels },
    pub ghost shallow: { depth.levels ≤ 6 },
}

impl Levels {
    // How many blocks a card has.
    pub fn blocks(self) -> u64
        ensures { (result ≡ 2 ^ self.depth.levels) × (2 ≤ result) × (result ≤ 64) }
    {
        self.depth.leaves()
    }

    // How many bytes it has.
    pub fn bytes(self) -> usize
        ensures { (result ≡ card_length self.depth.levels) × (result ≤ 6608) }
    {
        (104 * self.blocks() - 48) as usize
    }

    // How many bytes a range buffer has that is a byte too short.
    pub fn short_ranges(self) -> usize
        ensures { result + 1 ≡ 16 * self.depth.levels }
    {
        (16 * self.depth.levels - 1) as usize
    }
}

// The block that a step names.
#[derive(Clone, Copy)]
pub struct Target {
    pub levels: Levels,
    pub index: BlockIndex,
    pub ghost on_card: { index.0 < 2 ^ levels.depth.levels },
}

// A card, and the block on it that a step names.
#[derive(Drop)]
pub struct Card<'a> {
    pub target: Target,
    pub bytes: &'a mut [u8],
    pub ghost full: { length bytes.now ≡ card_length target.levels.depth.levels },
}
