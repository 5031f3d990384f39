//! The trait of every broadcast.
ghost use Rattle.std.specs.Prelude.{◌≡◌, ℕ, ◌+◌, ◌≤◌, List, [], length};
ghost use Rattle.message.specs.Messages.{Msg, msg_of};
ghost use Rattle.broadcast.specs.Bags.{nth, heard, Offered, Ordered};

use crate::faults::{Full, NotOrdered, NothingWaits};
use message::Message;

/// A list of ordered messages, with positions from 0, and a bag of waiting ones. No call allocates.
pub trait Broadcast {
    ghost log: { Self → List Msg };

    ghost waiting: { Self → List Msg };

    ghost capacity: { Self → ℕ };

    /// Empties the list and the bag.
    fn clear(&mut self)
        ensures log { log self.new ≡ [] }
        ensures waiting { waiting self.new ≡ [] }
        ensures capacity { capacity self.new ≡ capacity self.old };

    /// Puts a message into the bag.
    ///
    /// Refused exactly where ordered and waiting messages together have reached the capacity.
    fn offer(&mut self, message: Message) -> Result<(), Full>
        ensures log { log self.new ≡ log self.old }
        ensures waiting { Offered (capacity self.old) (log self.old) (msg_of message) (waiting self.old) (waiting self.new) result }
        ensures capacity { capacity self.new ≡ capacity self.old };

    /// Moves one waiting message to the end of the list and answers its position. Which one is the make's choice.
    ///
    /// Refused exactly where no message waits.
    fn order(&mut self) -> Result<u64, NothingWaits>
        ensures moved { Ordered (log self.old) (waiting self.old) (log self.new) (waiting self.new) result }
        ensures capacity { capacity self.new ≡ capacity self.old };

    /// How many messages are ordered.
    fn ordered_count(&self) -> u64
        ensures { result ≡ length (log self.now) };

    /// How many messages wait.
    fn waiting_count(&self) -> u64
        ensures { result ≡ length (waiting self.now) };

    /// The message at a position.
    ///
    /// Refused exactly where the position is at or past the count of ordered messages.
    fn message_at(&self, position: u64) -> Result<&Message, NotOrdered>
        ensures { heard result ≡ nth (log self.now) position };

    ghost roomy: { (b : Self) → (length (log b) + length (waiting b) ≤ capacity b) × (16 ≤ capacity b) × (capacity b ≤ 4096) };
}
