// The field with 256 elements, where it is computed and not looked up.
ghost use Rattle.std.specs.Prelude.{◌≡◌};
ghost use Rattle.tables.specs.Field.{times};

// A byte doubled: its product with the byte 2, which is z. A bit that leaves the byte comes back as 0x1b.
pub fn doubled(byte: u8) -> u8
    ensures { result ≡ times 2 byte }
{
    if byte < 0x80 {
        2 * byte
    } else {
        0x1b ^ 2 * (byte - 0x80)
    }
}
