// Key expansion: the ten round keys after the key, a round key at a time.
ghost use Rattle.std.specs.Prelude.{◌≡◌};
ghost use Rattle.cipher.specs.KeyExpansion.{sub_word, rot_word, next_round_key, key_expansion};
ghost use Rattle.words.specs.Words.{bytes, state_of};

use tables::field;
use tables::sbox::SBox;
use words::{Columns, Packed};

// The expanded key. The first byte of the round constant runs along, 1 in the first round and doubled after each.
pub fn expand(key: [u8; 16]) -> [u8; 176]
    ensures { result ≡ key_expansion key }
{
    let sbox = SBox::new();
    let mut schedule = [0u8; 176];
    let mut last = Columns::at(&key, 0);
    last.put(&mut schedule, 0);
    let mut constant = 1;
    for round in 0..10 {
        last = next(sbox, last, constant);
        last.put(&mut schedule, 16 * round + 16);
        constant = field::doubled(constant);
    }
    schedule
}

// A word turned by a byte, and each byte substituted.
fn turned(sbox: SBox, word: u32) -> u32
    ensures { bytes 4 result ≡ sub_word (rot_word (bytes 4 word)) }
{
    u32::from_le_bytes([
        sbox.substituted(words::byte(word, 1)),
        sbox.substituted(words::byte(word, 2)),
        sbox.substituted(words::byte(word, 3)),
        sbox.substituted(words::byte(word, 0)),
    ])
}

// The round key after another, with the first byte of its round constant.
pub fn next(sbox: SBox, key: Columns, constant: u8) -> Columns
    ensures { state_of result ≡ next_round_key constant (state_of key) }
{
    let c0 = key.c0 ^ (turned(sbox, key.c3) ^ constant as u32);
    let c1 = key.c1 ^ c0;
    let c2 = key.c2 ^ c1;
    let c3 = key.c3 ^ c2;
    Columns { c0, c1, c2, c3 }
}
