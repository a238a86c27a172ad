// Cards with one bit wrong.
ghost use Rattle.std.specs.Prelude.{◌≡◌, ◌≤◌, ◌<◌, length, set};

use crate::{Draw, Left, Turn};

// Where a bit of a card is flipped: the byte's place, and the byte as it was.
#[derive(Clone, Copy)]
pub struct Spot {
    at: usize,
    was: u8,
}

// Draws a bit and flips it.
pub fn one(draw: &mut Draw, card: &mut [u8]) -> Spot
    requires { 1 ≤ length card.old }
    ensures at { result.at < length card.old }
    ensures card { set card.new result.at result.was ≡ card.old }
{
    let at = draw.pick(card.len() as u64) as usize;
    let was = card[at];
    card[at] = was ^ (1 << draw.pick(8));
    Spot { at, was }
}

// Makes a call with a bit flipped, and flips it back.
pub fn flipped<F: FnOnce(&Turn, &[u8]) -> Left>(turn: &mut Turn, card: &mut [u8], call: F) -> Left
    requires len { 1 ≤ length card.old }
    requires call { F.IsAlwaysCallable call }
    ensures { card.new ≡ card.old }
{
    let spot = one(&mut turn.draw, card);
    let left = call(turn, card);
    card[spot.at] = spot.was;
    left
}
