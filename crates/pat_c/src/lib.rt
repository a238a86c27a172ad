// The calls of pat for C, as a static library: each export has the name and the contract of a function of pat, and calls it, since a crate
// is either a library for others or a static library for C. pat's file says what each does, and how bytes and numbers pass.
#![tactic(auto)]

ghost use Rattle.std.specs.Prelude.{[]};
ghost use Rattle.cmac.specs.Cmac.{cmac_of};
ghost use Rattle.tree.specs.Calls.{read, write, check, wipe, outcome};
ghost use Rattle.host_bytes.specs.Host.{Hosts, host_call, host_format, Codes};
ghost use Rattle.host_bytes.specs.Journal.{host_journalled, HostsJournalled, host_recovery};
ghost use Rattle.host_bytes.specs.Split.{host_plan, HostsPlan, host_put, HostsPut};

use tree::Anchor;

#[unsafe(no_mangle)]
pub extern "C" fn pat_format(anchor: &mut [u8], card: &mut [u8]) -> u64
    ensures { Hosts (host_format anchor.old card.old) result anchor.new card.new [] }
{
    pat::pat_format(anchor, card)
}

#[unsafe(no_mangle)]
pub extern "C" fn pat_read(anchor: &[u8], card: &[u8], index: u64, buffer: &mut [u8]) -> u64
    ensures { Hosts (host_call anchor.now card.now (read index buffer.old))
        result anchor.now card.now buffer.new }
{
    pat::pat_read(anchor, card, index, buffer)
}

#[unsafe(no_mangle)]
pub extern "C" fn pat_write(
    anchor: &mut [u8],
    card: &mut [u8],
    index: u64,
    block: &[u8],
    ranges: &mut [u8],
) -> u64
    ensures { Hosts
        (host_call anchor.old card.old (write index block.now ranges.old))
        result anchor.new card.new ranges.new }
{
    pat::pat_write(anchor, card, index, block, ranges)
}

#[unsafe(no_mangle)]
pub extern "C" fn pat_check(anchor: &[u8], card: &[u8]) -> u64
    ensures { Hosts (host_call anchor.now card.now check) result anchor.now card.now [] }
{
    pat::pat_check(anchor, card)
}

#[unsafe(no_mangle)]
pub extern "C" fn pat_wipe(anchor: &mut [u8], card: &mut [u8]) -> u64
    ensures { Hosts (host_call anchor.old card.old wipe) result anchor.new card.new [] }
{
    pat::pat_wipe(anchor, card)
}

#[unsafe(no_mangle)]
pub extern "C" fn pat_write_in_place(
    anchor: &mut Anchor,
    card: &mut [u8],
    index: u64,
    block: &[u8],
    ranges: &mut [u8],
) -> u64
    ensures { Codes
        (outcome (cmac_of anchor.old.key) anchor.old card.old
        (write index block.now ranges.old))
        result anchor.new card.new ranges.new }
{
    pat::pat_write_in_place(anchor, card, index, block, ranges)
}

#[unsafe(no_mangle)]
pub extern "C" fn pat_plan(
    anchor: &mut [u8],
    card: &mut [u8],
    index: u64,
    block: &[u8],
    ranges: &mut [u8],
    plan: &mut [u8],
    messages: &mut [u8],
) -> u64
    ensures { HostsPlan
        (host_plan anchor.old card.old index block.now ranges.old
        plan.old messages.old)
        result anchor.new plan.new card.new ranges.new messages.new }
{
    pat::pat_plan(anchor, card, index, block, ranges, plan, messages)
}

#[unsafe(no_mangle)]
pub extern "C" fn pat_put_tag(
    anchor: &mut [u8],
    plan: &mut [u8],
    card: &mut [u8],
    node: u64,
    tag: &[u8],
) -> u64
    ensures { HostsPut
        (host_put anchor.old plan.old card.old node tag.now)
        result anchor.new plan.new card.new }
{
    pat::pat_put_tag(anchor, plan, card, node, tag)
}

#[unsafe(no_mangle)]
pub extern "C" fn pat_write_journalled(
    anchor: &mut [u8],
    raised: &mut [u8],
    card: &mut [u8],
    index: u64,
    block: &[u8],
    ranges: &mut [u8],
    journal: &mut [u8],
) -> u64
    ensures { HostsJournalled
        (host_journalled anchor.old raised.old card.old index block.now
        ranges.old journal.old)
        result anchor.new raised.new card.new ranges.new journal.new }
{
    pat::pat_write_journalled(anchor, raised, card, index, block, ranges, journal)
}

#[unsafe(no_mangle)]
pub extern "C" fn pat_recover(anchor: &[u8], card: &mut [u8], journal: &[u8]) -> u64
    ensures { Hosts (host_recovery anchor.now card.old journal.now) result anchor.now card.new [] }
{
    pat::pat_recover(anchor, card, journal)
}
