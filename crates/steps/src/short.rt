// Cards that are too short.
ghost use Rattle.std.specs.Prelude.{◌≡◌, ◌-◌, length, take, drop};
ghost use Rattle.std.specs.Fn.{FnOnceReturnsAtMut};

use crate::Left;

// Makes a call on the card without its last byte.
pub fn by_one<F: FnOnce(&mut [u8]) -> Left>(card: &mut [u8], call: F) -> Left
    requires { F.IsAlwaysCallable call }
    ensures gives { FnOnceReturnsAtMut F.FnOnce call (take (length card.old - 1) card.old) result (take (length card.old - 1) card.new) }
    ensures last { drop (length card.old - 1) card.new ≡ drop (length card.old - 1) card.old }
{
    let len = card.len().saturating_sub(1);
    call(&mut card[..len])
}
