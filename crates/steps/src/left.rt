// What a step leaves.
ghost use Rattle.std.specs.Prelude.{◌≡◌};
ghost use Rattle.tree.specs.Answer.{answer_in};

use crate::sum;
use cmac::counted::Counted;
use tree::Error;

// What every byte of the two buffers is before a step.
pub const BUFFER: u8 = 0x5a;

pub const RANGES: u8 = 0x3c;

// The answer with its count, and the sums of the buffer and of the range buffer.
#[derive(Clone, Copy)]
pub struct Left {
    pub answer: Counted<Result<(), Error>>,
    pub buffer: u64,
    pub ranges: u64,
}

// What a call leaves that touches no buffer.
impl<T: Copy> From<Counted<Result<T, Error>>> for Left {
    ghost from_gives = { λ answer left.
        (answer_in left.answer.value ≡ answer_in answer.value) × (left.answer.count ≡ answer.count) };

    fn from(answer: Counted<Result<T, Error>>) -> Left {
        Left {
            answer: Counted {
                value: answer.value.map(|_| ()),
                count: answer.count,
            },
            buffer: sum::adler(&[BUFFER; 64]),
            ranges: sum::adler(&[RANGES; 101]),
        }
    }
}
