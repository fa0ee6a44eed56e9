//! Short lines, which take no memory.

ghost use Rattle.std.specs.Prelude.{◌≡◌, ◌+◌, ◌≤◌, ◌++◌, length};
ghost use Rattle.arrayvec.specs.ArrayVec.{array_vec_len};

use arrayvec::ArrayVec;

/// Room for a short line.
pub type ShortLine = ArrayVec<u8, 96>;

/// Puts bytes after those of a short line that has room for them.
pub fn put(line: &mut ShortLine, bytes: &[u8])
    requires { array_vec_len line.old + length bytes.now ≤ 96 }
    ensures bytes { line.new.items ≡ line.old.items ++ bytes.now }
    ensures len { array_vec_len line.new ≡ array_vec_len line.old + length bytes.now }
{
    line.try_extend_from_slice(bytes).unwrap();
}
