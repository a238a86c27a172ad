// The work behind the exported functions that go through the cipher, once the lengths are right.
ghost use Rattle.std.specs.Prelude.{◌≡◌};
ghost use Rattle.cipher.specs.Cipher.{encrypt_of};
ghost use Rattle.probe.specs.Told.{repeated};

use cipher::Aes128;
use words::{Block, Packed};

#[tactic(auto, unfolding(probe::specs::Told::repeated))]
pub fn encrypt(key: &[u8; 16], block: &[u8; 16], out: &mut [u8; 16])
    ensures { out.new ≡ encrypt_of key.now block.now }
{
    *out = *block;
    encrypt_chain(key, out, 1);
}

pub fn encrypt_chain(key: &[u8; 16], block: &mut [u8; 16], count: u64)
    ensures { block.new ≡ repeated (encrypt_of key.now) block.old count }
{
    let aes = Aes128::new(*key);
    let mut x = Block::at(block, 0);
    for _ in 0..count {
        x = aes.encrypt(x);
    }
    *block = x.into();
}
