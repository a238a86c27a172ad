// AES-128 encryption, FIPS 197.
#![tactic(auto)]

pub mod key;
mod round;

ghost use Rattle.std.specs.Prelude.{◌≡◌};
ghost use Rattle.cipher.specs.Cipher.{cipher_of};
ghost use Rattle.cipher.specs.KeyExpansion.{key_expansion};
ghost use Rattle.words.specs.Words.{block_of};

use tables::round_table::RoundTable;
use words::{Block, Columns, Packed};

// The cipher with an expanded key.
#[derive(Clone, Copy)]
pub struct Aes128<'a> {
    pub table: RoundTable<'a>,
    pub schedule: [u8; 176],
}

impl<'a> Aes128<'a> {
    // Under a key.
    pub fn new(key: [u8; 16]) -> Aes128<'static>
        ensures { result.schedule ≡ key_expansion key }
    {
        Aes128 {
            table: RoundTable::new(),
            schedule: key::expand(key),
        }
    }

    // One block, whatever the expanded key holds. The first round key is joined column by column, so that each column keeps its own
    // register: joined as a block, two of them share one, and the rounds are slower.
    pub fn encrypt(&self, input: Block) -> Block
        ensures { block_of result ≡ cipher_of self.now.schedule (block_of input) }
    {
        let mut state = Columns::from(input) ^ Columns::at(&self.schedule, 0);
        for i in 1..10 {
            state = round::whole(self.table, Columns::at(&self.schedule, 16 * i), state);
        }
        Block::from(round::last(self.table, Columns::at(&self.schedule, 160), state))
    }
}
