// The answer as one number.
ghost use Rattle.std.specs.Prelude.{◌≡◌, ◌<◌};
ghost use Rattle.tree.specs.Answer.{node_of, answer_in};
ghost use Rattle.host_bytes.specs.Host.{code_of};

use tree::Error;

// 0 where the call is accepted, and else the error's number, plus 256 times its node. A function, since a `From` would be another crate's
// trait between types of other crates.
#[tactic(auto, unfolding(crate::specs::Host::code_of))]
pub fn of<T: Copy>(answer: Result<T, Error>) -> u64
    requires { node_of (answer_in answer) < 131072 }
    ensures { result ≡ code_of (answer_in answer) }
{
    match answer {
        Ok(_) => 0,
        Err(error) => error.number() + 256 * error.node(),
    }
}
