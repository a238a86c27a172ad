// AES-CMAC, RFC 4493. A caller makes a context once, and lends it to every tag.
#![tactic(auto)]

pub mod counted;
mod message;
mod subkey;

ghost use Rattle.std.specs.Prelude.{◌≡◌};
ghost use Rattle.words.specs.Words.{block_of};
ghost use Rattle.cmac.specs.Context.{ContextOf, tag_under, tag_by, count_by};
ghost use Rattle.cmac.specs.Traced.{count_under};

use cipher::Aes128;
use counted::Counted;
use words::{Block, Packed};

// The cipher under a key, and both subkeys one after the other, with the count of the cipher's calls for them. Its table is the static one:
// any other that keeps the rule has the same bytes.
#[derive(Clone, Copy)]
pub struct Context {
    pub aes: Aes128<'static>,
    pub subkeys: [u8; 32],
    pub count: u64,
}

impl Context {
    // Under a key. While the subkeys are not known zeros stand for them: the tag of the zero block is then its cipher. A context that tags
    // before it is handed out is copied, so its parts do.
    pub fn new(key: [u8; 16]) -> Context
        ensures { ContextOf key result }
    {
        let aes = Aes128::new(key);
        let made = tag_under(&aes, &[0; 32], &[0; 16]);
        let first = subkey::doubled(made.value);
        let mut subkeys = [0; 32];
        first.put(&mut subkeys, 0);
        subkey::doubled(first).put(&mut subkeys, 16);
        Context {
            aes,
            subkeys,
            count: made.count,
        }
    }

    // The tag of a message, with the count of the cipher's calls for it.
    pub fn tag(&self, message: &[u8]) -> Counted<Block>
        ensures value { block_of result.value ≡ tag_by self.now message.now }
        ensures count { result.count ≡ count_by self.now message.now }
    {
        tag_under(&self.aes, &self.subkeys, message)
    }
}

// The same with a context's two parts. One loop takes every block, the last one with its subkey, so that the cipher has one call and the
// state stays in registers; it counts that call.
fn tag_under(aes: &Aes128, subkeys: &[u8; 32], message: &[u8]) -> Counted<Block>
    ensures value { block_of result.value ≡ tag_under aes.now.schedule subkeys.now message.now }
    ensures count { result.count ≡ count_under aes.now.schedule subkeys.now message.now }
{
    let before = message::before_last(message);
    let last = message::last(subkeys, message, before);
    let mut value = Block { head: 0, tail: 0 };
    let mut count = 0u64;
    for i in 0..before + 1 {
        let input = message::input(message, last, before, i);
        value = aes.encrypt(value ^ input);
        count += 1;
    }
    Counted { value, count }
}
