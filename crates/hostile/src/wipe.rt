// Wipes of any card.
ghost use Rattle.std.specs.Prelude.{◌≡◌, length};

use crate::refuse;
use steps::{Card, Left, Turn, flip};

// What is wiped: the card as it is, with a bit flipped, with bytes that are drawn or with those of the old card. Or a limit refuses the
// wipe.
#[derive(Clone, Copy)]
enum Wiped {
    Card,
    Flipped,
    Drawn,
    Old,
    Nothing,
}

// Half of the wipes are accepted, whatever the card is, and a limit refuses the others.
pub fn step(turn: &mut Turn, card: &mut Card, copy: &[u8]) -> Left
    requires { length copy.now ≡ length card.old.bytes.now }
{
    let levels = card.target.levels;
    match turn.draw.pick_of(&[
        Wiped::Card,
        Wiped::Flipped,
        Wiped::Drawn,
        Wiped::Old,
        Wiped::Nothing,
        Wiped::Nothing,
        Wiped::Nothing,
        Wiped::Nothing,
    ]) {
        Wiped::Card => {}
        Wiped::Flipped => {
            flip::one(&mut turn.draw, card.bytes);
        }
        Wiped::Drawn => turn.draw.fill(card.bytes),
        Wiped::Old => card.bytes.copy_from_slice(copy),
        Wiped::Nothing => return refuse::wipe(turn, levels, card.bytes),
    }
    turn.wipe(card.bytes)
}
