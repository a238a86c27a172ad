// Numbers as words of their bytes, big-endian.
ghost use Rattle.std.specs.Prelude.{◌≡◌};
ghost use Rattle.tree.specs.Numbers.{be};

use words::Word;

// A number of four or eight bytes.
pub fn be<W: Word>(number: W) -> W
    ensures { W.Packed.packed result ≡ be W.Packed.size (W.number number) }
{
    number.reversed()
}
