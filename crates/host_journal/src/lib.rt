// A journalled write and a recovery as C has them: the anchors are bytes, and the answer is one number, since C calls them through pat.
// Another length of an anchor is refused before the rest.
#![tactic(auto)]

ghost use Rattle.std.specs.Prelude.{◌≡◌, [], cond};
ghost use Rattle.std.specs.Result.{result_unwrap_or};
ghost use Rattle.tree.specs.Answer.{is_whole, answer_in};
ghost use Rattle.host_bytes.specs.Host.{Hosts, anchor_of, with_reserved, with_nonces};
ghost use Rattle.host_bytes.specs.Journal.{host_journalled, HostsJournalled, host_recovery};

use host_bytes::{ANCHOR_BYTES, REFUSED_LENGTH, anchor, code};
use recovery::Written;
use tree::{BlockIndex, Error};

// Writes a block and fills the journal. The anchor that is stored first goes into `raised`, and the final one's nonces into the anchor.
#[tactic(auto, unfolding(host_bytes::specs::Journal::host_journalled), using(host_bytes::proofs::Sizes::raised_length))]
pub fn write(
    anchor: &mut [u8],
    raised: &mut [u8],
    card: &mut [u8],
    index: u64,
    block: &[u8],
    ranges: &mut [u8],
    journal: &mut [u8],
) -> u64
    ensures { HostsJournalled
        (host_journalled anchor.old raised.old card.old index block.now
        ranges.old journal.old)
        result anchor.new raised.new card.new ranges.new journal.new }
{
    let Some(anchor) = anchor.as_mut_array() else {
        return REFUSED_LENGTH;
    };
    let Some(raised) = raised.as_mut_array() else {
        return REFUSED_LENGTH;
    };
    let given = anchor::of(anchor);
    let made = recovery::write(given, card, BlockIndex(index), block, ranges, journal).value;
    settle(anchor, raised, made);
    code::of(made)
}

// Puts both anchors of an accepted journalled write into their bytes.
fn settle(
    anchor: &mut [u8; ANCHOR_BYTES],
    raised: &mut [u8; ANCHOR_BYTES],
    made: Result<Written, Error>,
)
    ensures anchor_after { anchor.new ≡ cond (is_whole (answer_in made))
        (with_nonces anchor.old (result_unwrap_or made (record { raised = anchor_of anchor.old; anchor = anchor_of anchor.old })).anchor)
        anchor.old }
    ensures raised_after { raised.new ≡ cond (is_whole (answer_in made))
        (with_reserved anchor.old
        (result_unwrap_or made (record { raised = anchor_of anchor.old; anchor = anchor_of anchor.old })).raised.reserved.0)
        raised.old }
{
    if let Ok(written) = made {
        *raised = *anchor;
        anchor::put_reserved(raised, written.raised.reserved);
        anchor::put_reserved(anchor, written.anchor.reserved);
        anchor::put_root(anchor, written.anchor.root);
    }
}

// Brings the card to the anchor's root nonce where the journal is for that.
#[tactic(auto, unfolding(host_bytes::specs::Journal::host_recovery))]
pub fn recover(anchor: &[u8], card: &mut [u8], journal: &[u8]) -> u64
    ensures { Hosts (host_recovery anchor.now card.old journal.now) result anchor.now card.new [] }
{
    let Some(anchor) = anchor.as_array() else {
        return REFUSED_LENGTH;
    };
    let given = anchor::of(anchor);
    code::of(recovery::recover(given, card, journal).map_err(Error::from))
}
