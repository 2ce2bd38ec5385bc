//! Several texts of one length.
ghost use Rattle.std.specs.Prelude.{◌≡◌, ◌+◌, ◌^◌, ◌<◌, length};
ghost use Rattle.stark_sha256.specs.Pieces.{HaveLength};

/// Texts side by side: of each its byte of `tags`, then its first piece, then its second one. The
/// first pieces have one length, and so have the second ones.
#[derive(Drop)]
pub(crate) struct Texts<'t, 'a, const N: usize> {
    pub(crate) tags: &'t [u8],
    pub(crate) first: &'a [&'a [u8]],
    pub(crate) second: &'a [&'a [u8]],
    /// How many bytes a first piece has.
    pub(crate) first_len: usize,
    /// How many bytes a second piece has.
    pub(crate) second_len: usize,
    ghost short: { 1 + (first_len + second_len) < 2 ^ 40 },
    ghost tag_count: { length tags.now ≡ N },
    ghost first_count: { length first.now ≡ N },
    ghost second_count: { length second.now ≡ N },
    ghost first_alike: { HaveLength N first_len first.now },
    ghost second_alike: { HaveLength N second_len second.now },
}
