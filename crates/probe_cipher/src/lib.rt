// The cipher for tests and benchmarks in other languages. A slice passes as a pointer and a length. Each call answers a number, since C
// calls it: 0, or 1 where a length is not the one wanted, and then it changes nothing.
#![tactic(auto)]

mod work;

ghost use Rattle.std.specs.Prelude.{◌&&◌, ◌≡◌, length};
ghost use Rattle.cipher.specs.Cipher.{encrypt_of};
ghost use Rattle.cipher.specs.KeyExpansion.{key_expansion};
ghost use Rattle.tables.specs.Tables.{IsSBox};
ghost use Rattle.probe.specs.Told.{Told, sized, repeated};

use tables::sbox::SBox;

// The substitution table.
#[unsafe(no_mangle)]
pub extern "C" fn probe_sbox(out: &mut [u8]) -> u64
    ensures { ((length out.old ≡ 256) → (result ≡ 0) × IsSBox out.new)
        × ((length out.old ≡ 256 → ⊥) → (result ≡ 1) × (out.new ≡ out.old)) }
{
    let Some(out) = out.as_mut_array() else {
        return 1;
    };
    *out = *SBox::new().bytes;
    0
}

// The expanded key.
#[unsafe(no_mangle)]
pub extern "C" fn probe_expand(key: &[u8], out: &mut [u8]) -> u64
    ensures { Told (sized key.now 16 && sized out.old 176) (key_expansion key.now)
        out.old out.new result }
{
    if let Some(key) = key.as_array()
        && let Some(out) = out.as_mut_array()
    {
        *out = cipher::key::expand(*key);
        0
    } else {
        1
    }
}

// One block under a key.
#[unsafe(no_mangle)]
pub extern "C" fn probe_encrypt(key: &[u8], block: &[u8], out: &mut [u8]) -> u64
    ensures { Told (sized key.now 16 && (sized block.now 16 && sized out.old 16))
        (encrypt_of key.now block.now) out.old out.new result }
{
    if let Some(key) = key.as_array()
        && let Some(block) = block.as_array()
        && let Some(out) = out.as_mut_array()
    {
        work::encrypt(key, block, out);
        0
    } else {
        1
    }
}

// A block encrypted count times, one after the other.
#[unsafe(no_mangle)]
pub extern "C" fn probe_encrypt_chain(key: &[u8], block: &mut [u8], count: u64) -> u64
    ensures { Told (sized key.now 16 && sized block.old 16)
        (repeated (encrypt_of key.now) block.old count) block.old block.new result }
{
    if let Some(key) = key.as_array()
        && let Some(block) = block.as_mut_array()
    {
        work::encrypt_chain(key, block, count);
        0
    } else {
        1
    }
}
