// Copying to the front of a buffer.

ghost use Rattle.std.specs.Prelude.{◌≡◌, ◌≤◌, ◌++◌, length, take, drop};

/// Copies the first `count` bytes of `from` to the front of `into`.
pub(crate) fn copy_front(from: &[u8], into: &mut [u8], count: usize)
    requires from_has { count ≤ length from.now }
    requires into_has { count ≤ length into.old }
    ensures front { take count into.new ≡ take count from.now }
    ensures rest { drop count into.new ≡ drop count into.old }
{
    into[..count].copy_from_slice(&from[..count]);
}
