// CMAC for tests and benchmarks in other languages. A slice passes as a pointer and a length. Each call answers a number, since C calls it:
// 0, or 1 where a length is not the one wanted, and then it changes nothing.
#![tactic(auto)]

mod work;

ghost use Rattle.std.specs.Prelude.{◌&&◌, leb, length};
ghost use Rattle.cmac.specs.Cmac.{cmac_of};
ghost use Rattle.cmac.specs.Context.{subkeys_of};
ghost use Rattle.probe.specs.Told.{Told, sized, repeated, retagged};

use cmac::Context;

// Both subkeys.
#[unsafe(no_mangle)]
pub extern "C" fn probe_subkeys(key: &[u8], out: &mut [u8]) -> u64
    ensures { Told (sized key.now 16 && sized out.old 32)
        (subkeys_of key.now) out.old out.new result }
{
    if let Some(key) = key.as_array()
        && let Some(out) = out.as_mut_array()
    {
        *out = Context::new(*key).subkeys;
        0
    } else {
        1
    }
}

// The tag of a message.
#[unsafe(no_mangle)]
pub extern "C" fn probe_tag(key: &[u8], message: &[u8], out: &mut [u8]) -> u64
    ensures { Told (sized key.now 16 && sized out.old 16)
        (cmac_of key.now message.now) out.old out.new result }
{
    if let Some(key) = key.as_array()
        && let Some(out) = out.as_mut_array()
    {
        work::tag(key, message, out);
        0
    } else {
        1
    }
}

// Count times, the tag of a message in the place of its first 16 bytes.
#[unsafe(no_mangle)]
pub extern "C" fn probe_tag_chain(key: &[u8], message: &mut [u8], count: u64) -> u64
    ensures { Told (sized key.now 16 && leb 16 (length message.old))
        (repeated (retagged key.now) message.old count) message.old message.new result }
{
    if let Some(key) = key.as_array()
        && message.len() >= 16
    {
        work::tag_chain(key, message, count);
        0
    } else {
        1
    }
}
