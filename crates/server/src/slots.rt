//! The slots of a server's database.
ghost use Rattle.std.specs.Prelude.{◌<◌};

/// One of the eight slots.
#[derive(Clone, Copy)]
pub struct Slot {
    pub index: usize,
    ghost low: { index < 8 },
}
