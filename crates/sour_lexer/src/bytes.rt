//! Classes of bytes, and how far one holds from the front of a slice.

ghost use Rattle.std.specs.Prelude.{◌≡◌, ◌≤◌, ◌==◌, drop, length, nat_le};
ghost use Rattle.std.specs.List.{prefix_len, position_or_len};
ghost use Rattle.std.specs.Char.{is_ascii_digit};
ghost use Rattle.sour_tokens.specs.Byte.{is_line_feed, is_blank, begins_word, continues_word};

// The class of each byte: `A` begins a word, `0` is a digit, `B` a blank, `L` a line feed, and `C` begins a
// comment. `S` is any other of the bytes 0x21 to 0x7E, and `X` any other byte.
static CLASSES: [u8; 256] = *b"\
    XXXXXXXXXBLXXBXXXXXXXXXXXXXXXXXX\
    BSSCSSSSSSSSSSSS0000000000SSSSSS\
    SAAAAAAAAAAAAAAAAAAAAAAAAAASSSSA\
    SAAAAAAAAAAAAAAAAAAAAAAAAAASSSSX\
    XXXXXXXXXXXXXXXXXXXXXXXXXXXXXXXX\
    XXXXXXXXXXXXXXXXXXXXXXXXXXXXXXXX\
    XXXXXXXXXXXXXXXXXXXXXXXXXXXXXXXX\
    XXXXXXXXXXXXXXXXXXXXXXXXXXXXXXXX";

/// The letter of the byte's class; those of the bytes of a word, `0` and `A`, come before the others.
pub(crate) fn class_of(byte: u8) -> u8
    // `A`, `0`, `B`, `L` and `C` are the bytes 65, 48, 66, 76 and 67.
    ensures letter { (result == 65) ≡ begins_word byte }
    ensures digit { (result == 48) ≡ is_ascii_digit byte }
    ensures word { nat_le result 65 ≡ continues_word byte }
    ensures blank { (result == 66) ≡ is_blank byte }
    ensures line_feed { (result == 76) ≡ is_line_feed byte }
    ensures comment { (result == 67) ≡ (byte == 35) }
{
    CLASSES[byte as usize]
}

/// What comes after the blanks at the front.
pub(crate) fn skip_blanks(bytes: &[u8]) -> &[u8]
    ensures { result.now ≡ drop (prefix_len is_blank bytes.now) bytes.now }
{
    for (i, byte) in bytes.iter().enumerate() {
        if class_of(*byte) != b'B' {
            return &bytes[i..];
        }
    }
    &bytes[bytes.len()..]
}

/// How many bytes at the front a word can go on with.
pub(crate) fn word_len(bytes: &[u8]) -> usize
    ensures value { result ≡ prefix_len continues_word bytes.now }
    ensures within { result ≤ length bytes.now }
{
    for (i, byte) in bytes.iter().enumerate() {
        if class_of(*byte) > b'A' {
            return i;
        }
    }
    bytes.len()
}

/// How many digits stand at the front.
pub(crate) fn digits_len(bytes: &[u8]) -> usize
    ensures value { result ≡ prefix_len is_ascii_digit bytes.now }
    ensures within { result ≤ length bytes.now }
{
    for (i, byte) in bytes.iter().enumerate() {
        if !byte.is_ascii_digit() {
            return i;
        }
    }
    bytes.len()
}

/// Where the first line feed stands, or the length.
pub(crate) fn line_len(bytes: &[u8]) -> usize
    ensures value { result ≡ position_or_len is_line_feed bytes.now }
    ensures within { result ≤ length bytes.now }
{
    for (i, byte) in bytes.iter().enumerate() {
        if *byte == b'\n' {
            return i;
        }
    }
    bytes.len()
}
