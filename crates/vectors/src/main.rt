// The published vectors of AES-128 and AES-CMAC, each printed with what the proved code makes of it; the file stdout has what the
// standards print.
#![tactic(auto)]

ghost use Rattle.std.specs.Prelude.{◌≤◌, length};

use cipher::Aes128;
use cmac::Context;
use std::io;
use words::{Block, Packed};

// The key of FIPS 197, appendix B, of SP 800-38A, F.1.1 and of RFC 4493, section 4.
const KEY: [u8; 16] = [
    0x2b, 0x7e, 0x15, 0x16, 0x28, 0xae, 0xd2, 0xa6, 0xab, 0xf7, 0x15, 0x88, 0x09, 0xcf, 0x4f, 0x3c,
];

// FIPS 197, appendix B.
const INPUT_B: [u8; 16] = [
    0x32, 0x43, 0xf6, 0xa8, 0x88, 0x5a, 0x30, 0x8d, 0x31, 0x31, 0x98, 0xa2, 0xe0, 0x37, 0x07, 0x34,
];

// FIPS 197, appendix C.1.
const KEY_C: [u8; 16] = [
    0x00, 0x01, 0x02, 0x03, 0x04, 0x05, 0x06, 0x07, 0x08, 0x09, 0x0a, 0x0b, 0x0c, 0x0d, 0x0e, 0x0f,
];

const INPUT_C: [u8; 16] = [
    0x00, 0x11, 0x22, 0x33, 0x44, 0x55, 0x66, 0x77, 0x88, 0x99, 0xaa, 0xbb, 0xcc, 0xdd, 0xee, 0xff,
];

// The four blocks of SP 800-38A, F.1.1, which are the message of RFC 4493 too.
const MESSAGE: [u8; 64] = [
    0x6b, 0xc1, 0xbe, 0xe2, 0x2e, 0x40, 0x9f, 0x96, 0xe9, 0x3d, 0x7e, 0x11, 0x73, 0x93, 0x17, 0x2a,
    0xae, 0x2d, 0x8a, 0x57, 0x1e, 0x03, 0xac, 0x9c, 0x9e, 0xb7, 0x6f, 0xac, 0x45, 0xaf, 0x8e, 0x51,
    0x30, 0xc8, 0x1c, 0x46, 0xa3, 0x5c, 0xe4, 0x11, 0xe5, 0xfb, 0xc1, 0x19, 0x1a, 0x0a, 0x52, 0xef,
    0xf6, 0x9f, 0x24, 0x45, 0xdf, 0x4f, 0x9b, 0x17, 0xad, 0x2b, 0x41, 0x7b, 0xe6, 0x6c, 0x37, 0x10,
];

fn main(rt: HostRuntime) -> io::Result<()> {
    let m = MESSAGE;
    encrypted(&rt, "FIPS 197 B", KEY, &INPUT_B)?;
    encrypted(&rt, "FIPS 197 C.1", KEY_C, &INPUT_C)?;
    encrypted(&rt, "SP 800-38A F.1.1 #1", KEY, &m[..16])?;
    encrypted(&rt, "SP 800-38A F.1.1 #2", KEY, &m[16..32])?;
    encrypted(&rt, "SP 800-38A F.1.1 #3", KEY, &m[32..48])?;
    encrypted(&rt, "SP 800-38A F.1.1 #4", KEY, &m[48..])?;
    encrypted(&rt, "RFC 4493 AES-128(0)", KEY, &[0; 16])?;
    let context = Context::new(KEY);
    line(&rt, "RFC 4493 K1", Block::at(&context.subkeys, 0))?;
    line(&rt, "RFC 4493 K2", Block::at(&context.subkeys, 16))?;
    line(&rt, "RFC 4493 example 1", context.tag(&m[..0]).value)?;
    line(&rt, "RFC 4493 example 2", context.tag(&m[..16]).value)?;
    line(&rt, "RFC 4493 example 3", context.tag(&m[..40]).value)?;
    line(&rt, "RFC 4493 example 4", context.tag(&m).value)
}

// Prints a block under a key.
fn encrypted(rt: &impl Print, label: &str, key: [u8; 16], input: &[u8]) -> io::Result<()>
    requires { 16 ≤ length input.now }
{
    line(rt, label, Aes128::new(key).encrypt(Block::at(input, 0)))
}

// Prints a label and a block in hexadecimal, in one piece.
fn line(rt: &impl Print, label: &str, block: Block) -> io::Result<()> {
    println!(rt; "{label:<22}{:032x}", u128::from_be_bytes(block.into()))
}
