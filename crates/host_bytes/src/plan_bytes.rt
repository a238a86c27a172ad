// The plan as bytes.
ghost use Rattle.std.specs.Prelude.{◌≡◌, ◌++◌, take};
ghost use Rattle.tree.specs.Numbers.{be8};
ghost use Rattle.host_bytes.specs.Split.{plan_of, bytes_of};

use crate::{PLAN_BYTES, anchor};
use plan::Plan;
use tree::{BlockIndex, Nonce, numbers};
use words::Packed;

// The plan that the bytes stand for; no `From`, as the anchor's.
#[tactic(auto, unfolding(crate::specs::Split::plan_of))]
pub fn of(bytes: &[u8; PLAN_BYTES]) -> Plan
    ensures { result ≡ plan_of bytes.now }
{
    Plan {
        index: BlockIndex(anchor::number_at(bytes, 0)),
        root: Nonce(anchor::number_at(bytes, 8)),
        filled: anchor::number_at(bytes, 16),
    }
}

// Puts a plan into the bytes.
pub fn put(bytes: &mut [u8; PLAN_BYTES], plan: Plan)
    ensures { bytes.new ≡ bytes_of plan }
{
    numbers::be(plan.index.0).put(bytes, 0);
    numbers::be(plan.root.0).put(bytes, 8);
    numbers::be(plan.filled).put(bytes, 16);
}

// Puts the filled places into the bytes.
pub fn put_filled(bytes: &mut [u8; PLAN_BYTES], filled: u64)
    ensures { bytes.new ≡ take 16 bytes.old ++ be8 filled }
{
    numbers::be(filled).put(bytes, 16);
}
