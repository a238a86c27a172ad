// The card of a history.
ghost use Rattle.std.specs.Prelude.{◌≡◌, [], replicate, take};
ghost use Rattle.cmac.specs.Cmac.{cmac_of};
ghost use Rattle.tree.specs.Layout.{card_length};
ghost use Rattle.tree.specs.Answer.{answer_in};
ghost use Rattle.tree.specs.Calls.{Gives, format};

use crate::levels::LONGEST;
use crate::{Draw, Left, Levels, Target, Turn};
use cmac::counted::Counted;
use tree::{Anchor, BlockIndex, Error, Nonce};

// A history as it stands: what the step before it left, the block that a step names, and the card with an older copy, each at the beginning
// of its bytes.
#[derive(Drop)]
pub struct History {
    pub turn: Turn,
    pub target: Target,
    pub card: [u8; LONGEST],
    pub copy: [u8; LONGEST],
}

impl History {
    // Formats a card under a key that is drawn, and keeps a copy. A format has no count.
    pub fn format(levels: Levels, mut draw: Draw) -> (History, Left)
        ensures levels { result.0.target.levels ≡ levels }
        ensures index { result.0.target.index.0 ≡ 0 }
        ensures card { let key = result.0.turn.anchor.key in
            let len = card_length levels.depth.levels in
            Gives (format (cmac_of key) key levels.depth.levels (replicate len 0xa5))
            (answer_in result.1.answer.value) result.0.turn.anchor (take len result.0.card) [] }
        ensures copy { result.0.copy ≡ result.0.card }
    {
        let mut key = [0u8; 16];
        draw.fill(&mut key);
        let depth = levels.depth.levels;
        let mut card = [0xa5u8; LONGEST];
        let made = calls::format(key, depth, &mut card[..levels.bytes()]);
        let anchor = made.unwrap_or(Anchor {
            key,
            depth,
            root: Nonce(0),
            reserved: Nonce(0),
        });
        let left = Left::from(Counted {
            value: made.map_err(Error::from),
            count: 0,
        });
        let turn = Turn { anchor, draw };
        let target = Target {
            levels,
            index: BlockIndex(0),
        };
        (
            History {
                turn,
                target,
                card,
                copy: card,
            },
            left,
        )
    }

    // Draws the block that a step names.
    pub fn draw_block(&mut self)
        ensures levels { self.new.target.levels ≡ self.old.target.levels }
        ensures card { self.new.card ≡ self.old.card }
        ensures copy { self.new.copy ≡ self.old.copy }
    {
        let blocks = self.target.levels.blocks();
        self.target.index = BlockIndex(self.turn.draw.pick(blocks));
    }

    // Keeps a copy of the card.
    pub fn keep(&mut self)
        ensures card { self.new.card ≡ self.old.card }
        ensures copy { self.new.copy ≡ self.old.card }
    {
        self.copy = self.card;
    }
}
