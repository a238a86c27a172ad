// The tree's calls, with fresh buffers.
ghost use Rattle.std.specs.Prelude.{◌≤◌};

use crate::left::{BUFFER, RANGES};
use crate::{Draw, Left, sum};
use cmac::counted::Counted;
use tree::{Anchor, BlockIndex, Error};

// What a step leaves to the next one, but for the card: the anchor and the generator.
#[derive(Clone, Copy)]
pub struct Turn {
    pub anchor: Anchor,
    pub draw: Draw,
}

impl Turn {
    // Reads a block, with so many bytes of the buffer lent.
    pub fn read(&self, card: &[u8], index: BlockIndex, lent: usize) -> Left
        requires { lent ≤ 64 }
    {
        let mut buffer = [BUFFER; 64];
        let answer = calls::read(self.anchor, card, index, &mut buffer[..lent]);
        Left {
            buffer: sum::adler(&buffer),
            ..Left::from(answer)
        }
    }

    // Draws the bytes of a block and writes them, with so many bytes of the range buffer lent.
    pub fn write(&mut self, card: &mut [u8], index: BlockIndex, lent: usize) -> Left
        requires { lent ≤ 101 }
    {
        let mut block = [0u8; 64];
        self.draw.fill(&mut block);
        let mut ranges = [RANGES; 101];
        let reply = calls::write(self.anchor, card, index, &block, &mut ranges[..lent]);
        Left {
            ranges: sum::adler(&ranges),
            ..self.take(reply)
        }
    }

    // Checks the card.
    pub fn check(&self, card: &[u8]) -> Left {
        calls::check(self.anchor, card).into()
    }

    // Wipes the card.
    pub fn wipe(&mut self, card: &mut [u8]) -> Left {
        let reply = calls::wipe(self.anchor, card);
        self.take(reply)
    }

    // Goes on from the anchor that a call answers, where it is accepted.
    fn take(&mut self, reply: Counted<Result<Anchor, Error>>) -> Left {
        self.anchor = reply.value.unwrap_or(self.anchor);
        reply.into()
    }
}
