// Split writes as steps of a history: a plan, and its tags put in an order that is drawn, with puts among them that the plan does not wait
// for.
#![tactic(auto)]

mod going;

use going::Going;
use steps::{Card, Left, Turn, flip, short};

// What is bad for a plan or for the puts after it.
#[derive(Clone, Copy)]
enum Bad {
    Ranges,
    Card,
    Bit,
}

// Plans a write of a block that is drawn, and puts its tags.
pub fn step(turn: &mut Turn, card: &mut Card) -> Left {
    Going::begin(turn, card.target, card.bytes, 101).finish(turn, card.bytes)
}

// The same with a range buffer or a card that is too short, so that the plan is refused and every put after it; or with a bit of the card
// flipped between the plan and the puts.
pub fn hostile(turn: &mut Turn, card: &mut Card) -> Left {
    let target = card.target;
    match turn.draw.pick_of(&[Bad::Ranges, Bad::Card, Bad::Bit]) {
        Bad::Ranges => {
            let short = target.levels.short_ranges();
            Going::begin(turn, target, card.bytes, short).finish(turn, card.bytes)
        }
        Bad::Card => short::by_one(card.bytes, |card| {
            Going::begin(turn, target, card, 101).finish(turn, card)
        }),
        Bad::Bit => {
            let going = Going::begin(turn, target, card.bytes, 101);
            flip::one(&mut turn.draw, card.bytes);
            going.finish(turn, card.bytes)
        }
    }
}
