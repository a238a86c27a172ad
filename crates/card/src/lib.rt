// A card that is looked at: tags of its nodes, and the nodes that a call checks.
#![tactic(auto)]

pub mod message;
pub mod view;
pub mod walk;

pub use message::Message;
pub use view::{BlockView, CardView, NodeView};
