// What the steps of a history are made of: the card as it stands, the calls with fresh buffers, on the card as it was left or with a bit
// flipped or a byte too short; the numbers that are drawn; sums.
#![tactic(auto)]

pub mod draw;
pub mod flip;
pub mod history;
pub mod left;
pub mod levels;
pub mod short;
pub mod sum;
pub mod turn;

pub use draw::Draw;
pub use history::History;
pub use left::Left;
pub use levels::{Card, Levels, Target};
pub use turn::Turn;
