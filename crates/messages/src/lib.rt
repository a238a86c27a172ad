// The messages that a plan gives, end to end in a buffer, in rising node number.
#![tactic(auto)]

ghost use Rattle.std.specs.Prelude.{◌≡◌, ◌++◌, map, ◌+◌, ◌*◌, ◌≤◌, length, drop};
ghost use Rattle.tree.specs.Labels.{labels};
ghost use Rattle.plan.specs.Places.{plan_nodes};
ghost use Rattle.plan.specs.Split.{given, joined};

use card::{BlockView, NodeView};

// Fills the front of the buffer with the messages of a plan's nodes.
pub fn fill(block: &BlockView, buffer: &mut [u8])
    requires { 34 * block.now.card.depth.levels + 112 ≤ length buffer.old }
    ensures { buffer.new
        ≡ joined (map (given (labels block.now.card.depth.levels block.now.card.root.0 block.now.card.bytes.now))
        (plan_nodes block.now.card.depth.levels block.now.index.0))
        ++ drop (34 * block.now.card.depth.levels + 112) buffer.old }
{
    let path = block.path();
    for level in 0..path.depth.levels {
        let place = (34 * level) as usize;
        let own = path.node(level + 1);
        let (lower, upper) = own.pair();
        let left = NodeView {
            card: block.card,
            node: lower,
        };
        left.message().put(buffer, place);
        let next = place + path.depth.size(own) + 9;
        let right = NodeView {
            card: block.card,
            node: upper,
        };
        right.message().put(buffer, next);
    }
}
