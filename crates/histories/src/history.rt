// The history of one depth: a format, and then steps that are drawn.
use crate::kind::KINDS;
use std::io;
use steps::{Draw, History, Left, Levels, sum};

// Where the generator starts, but for the depth.
const SEED: u64 = 0x9e37_79b9_7f4a_7c15;

// How many steps follow the format, which is step 0, of the number after those of the kinds.
const STEPS: u64 = 700;

// Runs and prints the history of a depth.
pub fn run(rt: &impl Print, levels: Levels) -> io::Result<()> {
    let depth = levels.depth.levels;
    let kinds = KINDS.len() as u64;
    println!(rt; "depth {depth}")?;
    let draw = Draw { last: SEED ^ depth };
    let (mut history, left) = History::format(levels, draw);
    log(rt, 0, kinds, left, &history)?;
    for number in 1..=STEPS {
        let kind = history.turn.draw.pick(kinds);
        history.draw_block();
        let left = KINDS[kind as usize].step(&mut history);
        log(rt, number, kind, left, &history)?;
    }
    Ok(())
}

// The line of a step: its number and kind, the answer's number and node, the count of the cipher's calls, the root nonce, and the sums of
// the card, the buffer and the range buffer.
fn log(rt: &impl Print, number: u64, kind: u64, left: Left, history: &History) -> io::Result<()> {
    let answer = left.answer.value;
    println!(rt;
        "{number} {kind} {} {} {} {} {} {} {}",
        tree::number(answer),
        tree::node_of(answer),
        left.answer.count,
        history.turn.anchor.root.0,
        sum::adler(&history.card[..history.target.levels.bytes()]),
        left.buffer,
        left.ranges
    )
}
