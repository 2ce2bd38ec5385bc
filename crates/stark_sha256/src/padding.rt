//! The padding behind a text.
ghost use Rattle.std.specs.Prelude.{◌≡◌, ◌+◌, ◌^◌, ◌<◌, ◌≤◌, slice_index};
ghost use Rattle.sha2.specs.Sha256.{padding, word_at};
ghost use Rattle.stark_sha256.specs.Pieces.{zeros_behind};

/// How many zeros the padding of a text of `len` bytes has.
fn zeros_behind(len: usize) -> usize
    ensures { result ≡ zeros_behind len }
{
    (119 - len % 64) % 64
}

/// A byte of the padding of a text of `len` bytes.
pub(crate) fn padding_byte(len: usize, at: usize) -> u8
    requires short { len < 2 ^ 40 }
    requires within { at < 9 + zeros_behind len }
    ensures { result ≡ slice_index (padding len) at }
{
    let zeros = zeros_behind(len);
    if at == 0 {
        0x80
    } else if at <= zeros {
        0
    } else {
        (8 * len as u64).to_be_bytes()[at - 1 - zeros]
    }
}

/// A word of the padding of a text of `len` bytes. Most words are zeros.
pub(crate) fn padding_word(len: usize, at: usize) -> u32
    requires short { len < 2 ^ 40 }
    requires within { at + 4 ≤ 9 + zeros_behind len }
    ensures { result ≡ word_at (padding len) at }
{
    if at >= 1 && at + 3 <= zeros_behind(len) {
        0
    } else {
        u32::from_be_bytes([
            padding_byte(len, at),
            padding_byte(len, at + 1),
            padding_byte(len, at + 2),
            padding_byte(len, at + 3),
        ])
    }
}
