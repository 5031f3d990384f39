//! Whose job a message is.
ghost use Rattle.std.specs.Prelude.{◌≤◌, length};

/// A client's job, by the client's name.
#[derive(Clone, Copy)]
pub(crate) struct Owner<'f> {
    pub(crate) name: &'f [u8],
    pub(crate) job: u32,
    ghost short: { length name.now ≤ 8 },
}
