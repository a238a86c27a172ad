// The work behind the exported functions that make tags, once the lengths are right.
ghost use Rattle.std.specs.Prelude.{◌≡◌, ◌≤◌, length};
ghost use Rattle.cmac.specs.Cmac.{cmac_of};
ghost use Rattle.probe.specs.Told.{repeated, retagged};

use cmac::Context;
use words::Packed;

pub fn tag(key: &[u8; 16], message: &[u8], out: &mut [u8; 16])
    ensures { out.new ≡ cmac_of key.now message.now }
{
    *out = Context::new(*key).tag(message).value.into();
}

pub fn tag_chain(key: &[u8; 16], message: &mut [u8], count: u64)
    requires { 16 ≤ length message.old }
    ensures { message.new ≡ repeated (retagged key.now) message.old count }
{
    let context = Context::new(*key);
    for _ in 0..count {
        context.tag(message).value.put(message, 0);
    }
}
