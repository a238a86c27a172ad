// The plan of a write whose tags come singly: which nodes it waits for, and which of them are filled. specs/ has the definitions of the two
// calls, a plan and a put.
#![tactic(auto)]

ghost use Rattle.std.specs.Prelude.{◌≡◌, true, false, [], ◌∷◌, ◌^◌, ◌≤◌, ◌<◌, ◌*◌, unwrap_or, IfSome, MatchOption};
ghost use Rattle.tree.specs.Tests.{tested};
ghost use Rattle.plan.specs.Places.{place_in, place_of, plan_nodes, awaits, fill, full};
ghost use Rattle.plan.specs.Split.{place_limit};

use tree::{BlockIndex, Depth, Node, Nonce, Path, Refusal};

// How many bytes the messages of a plan take at the highest depth, and so their buffer at every depth.
pub const MESSAGE_BYTES: usize = 656;

// What is kept between a plan and its last tag, and trusted like the anchor: the block's number, the root nonce that the last tag brings,
// and a bit for each place, set where its tag was put.
#[derive(Clone, Copy)]
pub struct Plan {
    pub index: BlockIndex,
    pub root: Nonce,
    pub filled: u64,
}

// The number that has one bit alone.
fn bit(place: u64) -> u64
    requires { place ≤ 32 }
    ensures { result ≡ 2 ^ place }
{
    1 << place
}

// The place of a node among the nodes of a plan, where it is one of them.
fn place(path: Path, node: Node) -> Option<u64>
    ensures place { unwrap_or result (2 * path.depth.levels) ≡ place_in node.0 (plan_nodes path.depth.levels path.index.0) }
    ensures below { IfSome result (λ place. place < 2 * path.depth.levels) }
{
    for level in 0..path.depth.levels {
        if node.parent() == path.node(level) {
            return Some(2 * level + node.side() as u64);
        }
    }
    None
}

impl Plan {
    // The place of a node, where the plan waits for its tag.
    fn open_place(self, depth: Depth, node: Node) -> Option<u64>
        ensures { MatchOption result (awaits depth.levels self node.0 ≡ false)
            (λ place. (awaits depth.levels self node.0 ≡ true) × (place ≡ place_of depth.levels self node.0)) }
    {
        if depth.leaves() <= self.index.0 {
            return None;
        }
        let path = Path {
            depth,
            index: self.index,
        };
        let place = place(path, node)?;
        if (self.filled >> place) % 2 == 0 {
            Some(place)
        } else {
            None
        }
    }

    // 9: the plan waits for the tag of that node.
    pub fn awaits(self, depth: Depth, node: Node) -> Result<(), Refusal>
        ensures { result ≡ tested (place_limit depth.levels self node.0 ∷ []) }
    {
        match self.open_place(depth, node) {
            Some(_) => Ok(()),
            None => Err(Refusal::NotAwaited),
        }
    }

    // The plan with one place more filled. It waits for that one, so the arm `None` is never reached.
    pub fn fill(self, depth: Depth, node: Node) -> Plan
        requires { awaits depth.levels self node.0 ≡ true }
        ensures { result ≡ fill depth.levels self node.0 }
    {
        match self.open_place(depth, node) {
            Some(place) => Plan {
                filled: self.filled + bit(place),
                ..self
            },
            None => self,
        }
    }

    // Whether every place is filled. The bound is asked, since the plan and the depth come from two places, and C gives a plan any number.
    pub fn is_full(self, depth: Depth) -> bool
        requires { self.index.0 < 2 ^ depth.levels }
        ensures { result ≡ full depth.levels self }
    {
        let places = bit(2 * depth.levels);
        self.filled % places == places - 1
    }
}
