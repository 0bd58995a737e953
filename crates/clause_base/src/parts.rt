//! Parts of a text.

ghost use Rattle.std.specs.Prelude.{◌+◌, ◌^◌, ◌<◌, length};

/// Bytes of a text, and the position of the first.
#[derive(Clone, Copy)]
pub(crate) struct Part<'a> {
    pub(crate) at: usize,
    pub(crate) text: &'a [u8],
    ghost fits: { at + length text.now < 2 ^ 63 },
}
