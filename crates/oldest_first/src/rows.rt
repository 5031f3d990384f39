//! One row of messages in the order of their offers.
ghost use Rattle.std.specs.Prelude.{◌≤◌, vec_len, vec_capacity};

use message::Message;

pub mod ordering;

/// A broadcast for up to 128 messages: the first `count` of its row are ordered, the others wait.
#[derive(Drop)]
pub struct OldestFirst {
    // kept: a row with the place where ordered ends and waiting begins, so that ordering a message moves none.
    messages: Vec<Message>,
    count: usize,
    ghost within: { (count ≤ vec_len messages) × (vec_len messages ≤ 128) × (128 ≤ vec_capacity messages) },
}
