// Long histories of calls on hostile cards, printed step by step. The file stdout has what an independent implementation prints.
#![tactic(auto)]

use std::io;
use steps::Levels;
use tree::Depth;

mod history;
mod kind;

// One history for each depth from 1 to 6.
fn main(rt: HostRuntime) -> io::Result<()> {
    for levels in 1..=6 {
        let depth = Depth { levels };
        history::run(&rt, Levels { depth })?;
    }
    Ok(())
}
