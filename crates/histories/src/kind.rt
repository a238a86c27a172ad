// The kinds of steps.
use hostile::{mix, refuse, wipe};
use steps::{Card, History, Left, flip};

// The kinds that numbers name. Five of nineteen write, two in a plan and its puts, and four read; the others are hostile, check the card,
// or wipe it.
pub const KINDS: [Kind; 19] = [
    Kind::Write,
    Kind::Write,
    Kind::Write,
    Kind::Write,
    Kind::Write,
    Kind::Read,
    Kind::Read,
    Kind::Read,
    Kind::Read,
    Kind::Check,
    Kind::ReadFlipped,
    Kind::CheckFlipped,
    Kind::ReadOld,
    Kind::Mix,
    Kind::Refuse,
    Kind::Keep,
    Kind::Wipe,
    Kind::Split,
    Kind::SplitHostile,
];

// What a step does.
#[derive(Clone, Copy)]
pub enum Kind {
    Write,
    Read,
    Check,
    ReadFlipped,
    CheckFlipped,
    ReadOld,
    Mix,
    Refuse,
    Keep,
    Wipe,
    Split,
    SplitHostile,
}

impl Kind {
    // Takes a step.
    pub fn step(self, history: &mut History) -> Left {
        let target = history.target;
        let index = target.index;
        let len = target.levels.bytes();
        let turn = &mut history.turn;
        let copy = &history.copy[..len];
        // Two steps, for the check takes no part of an array that is a field behind a `&mut`.
        let bytes = &mut history.card[..];
        let bytes = &mut bytes[..len];
        match self {
            Kind::Write => turn.write(bytes, index, 101),
            Kind::Read => turn.read(bytes, index, 64),
            Kind::Check => turn.check(bytes),
            Kind::ReadFlipped => flip::flipped(
                turn,
                bytes,
                |turn, card| turn.read(card, index, 64),
            ),
            Kind::CheckFlipped => flip::flipped(turn, bytes, |turn, card| turn.check(card)),
            Kind::ReadOld => turn.read(copy, index, 64),
            Kind::Mix => mix::step(turn, target.levels, index, bytes, copy),
            Kind::Refuse => refuse::step(turn, &mut Card { target, bytes }),
            Kind::Keep => {
                let left = turn.check(bytes);
                history.keep();
                left
            }
            Kind::Wipe => wipe::step(turn, &mut Card { target, bytes }, copy),
            Kind::Split => split_steps::step(turn, &mut Card { target, bytes }),
            Kind::SplitHostile => split_steps::hostile(turn, &mut Card { target, bytes }),
        }
    }
}
