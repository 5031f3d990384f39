//! The ordered messages, the waiting ones in the order of their offers, and the line whose turn it is.
ghost use Rattle.std.specs.Prelude.{◌+◌, ◌<◌, ◌≤◌, vec_len, vec_capacity};

use message::Message;

mod choosing;
pub mod ordering;

/// A broadcast for up to 128 messages, in eight lines by sender modulo 8.
#[derive(Drop)]
pub struct InTurn {
    ordered: Vec<Message>,
    waiting: Vec<Message>,
    next: usize,
    ghost within: { vec_len ordered + vec_len waiting ≤ 128 },
    ghost reserved: { (128 ≤ vec_capacity ordered) × (128 ≤ vec_capacity waiting) },
    ghost turn: { next < 8 },
}
