// A split write: its plan and its puts.
ghost use Rattle.std.specs.Prelude.{◌≡◌, ◌*◌, ◌≤◌};

use cmac::Context;
use plan::{MESSAGE_BYTES, Plan};
use split::Progress;
use steps::{Left, Target, Turn, left, sum};
use tree::{BlockIndex, Error, Node, Nonce, Path};

// What the puts behind a refused plan are tried with: no card has its block.
const NO_PLAN: Plan = Plan {
    index: BlockIndex(65536),
    root: Nonce(0),
    filled: 0,
};

// A split write: its block, its plan as last returned, the tags of its messages, and what the plan left.
#[derive(Clone, Copy)]
pub struct Going {
    target: Target,
    plan: Plan,
    tags: [[u8; 16]; 13],
    left: Left,
}

impl Going {
    // Plans a write of a block whose bytes are drawn, with so many bytes of the range buffer lent, and goes on from the anchor that it
    // hands out.
    pub fn begin(turn: &mut Turn, target: Target, card: &mut [u8], lent: usize) -> Going
        requires { lent ≤ 101 }
    {
        let mut block = [0u8; 64];
        turn.draw.fill(&mut block);
        let mut ranges = [left::RANGES; 101];
        let mut messages = [left::BUFFER; MESSAGE_BYTES];
        let planned = split::plan(
            turn.anchor,
            card,
            target.index,
            &block,
            &mut ranges[..lent],
            &mut messages,
        );
        let Progress { anchor, plan } = planned.value.unwrap_or(Progress {
            anchor: turn.anchor,
            plan: NO_PLAN,
        });
        turn.anchor = anchor;
        let mut going = Going {
            target,
            plan,
            tags: [[0; 16]; 13],
            left: Left {
                ranges: sum::adler(&ranges),
                ..Left::from(planned)
            },
        };
        going.make_tags(turn.anchor.key, &messages);
        going
    }

    // The engines: the tags of all messages of a plan, and zeros behind them. The messages of the leaves come last, and are longer.
    fn make_tags(&mut self, key: [u8; 16], messages: &[u8; MESSAGE_BYTES]) {
        let context = Context::new(key);
        let inner = (34 * self.target.levels.depth.levels - 34) as usize;
        let each = messages[..inner]
            .chunks_exact(17)
            .chain(messages[inner..inner + 146].chunks_exact(73));
        for (tag, message) in self.tags.iter_mut().zip(each) {
            *tag = context.tag(message).value.into();
        }
    }

    // As many puts as there are places, of places that are drawn, and then each place in rising order: in the end all are filled, and some
    // were tried twice. The buffer's sum is that of the numbers that they answer.
    pub fn finish(mut self, turn: &mut Turn, card: &mut [u8]) -> Left {
        let places = (2 * self.target.levels.depth.levels) as usize;
        let mut answers = [left::BUFFER; 64];
        for (k, answer) in answers[..2 * places].iter_mut().enumerate() {
            let place = if k < places {
                turn.draw.pick(places as u64 + 1) as usize
            } else {
                k - places
            };
            *answer = (self.put(turn, card, place) & 0xff) as u8;
        }
        Left {
            buffer: sum::adler(&answers),
            ..self.left
        }
    }

    // Puts the tag of a place, and answers the put's number.
    fn put(&mut self, turn: &mut Turn, card: &mut [u8], place: usize) -> u64
        requires { place ≤ 2 * self.old.target.levels.depth.levels }
        ensures { self.new.target ≡ self.old.target }
    {
        let placed = split::put_tag(
            turn.anchor,
            self.plan,
            card,
            self.node(place),
            self.tags[place],
        );
        if let Ok(Progress { anchor, plan }) = placed {
            turn.anchor = anchor;
            self.plan = plan;
        }
        tree::number(placed.map(|_| ()).map_err(Error::from))
    }

    // The node at a place; behind the last one the root, which no plan waits for.
    fn node(&self, place: usize) -> Node
        requires { place ≤ 2 * self.now.target.levels.depth.levels }
    {
        let place = place as u64;
        let depth = self.target.levels.depth;
        if place == 2 * depth.levels {
            return Node(1);
        }
        let path = Path {
            depth,
            index: self.target.index,
        };
        let (lower, upper) = path.node(place / 2 + 1).pair();
        if place % 2 == 0 { lower } else { upper }
    }
}
