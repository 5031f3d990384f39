//! Offering, ordering and reading.
ghost use Rattle.std.specs.Prelude.{◌≡◌, ◌≤◌, [], ◌∷◌, ◌++◌, length, IfOk, OnOk};
ghost use Rattle.message.specs.Messages.{msg_of};
ghost use Rattle.broadcast.specs.Bags.{Offered, Ordered};
ghost use Rattle.oldest_first.specs.Rows.{log_of, waiting_of, capacity_of, FirstMoved};
ghost use Rattle.std.proofs.Common.{arith};
ghost use Rattle.oldest_first.specs.Parts.{log_length, bag_length};

use super::OldestFirst;
use broadcast::{Broadcast, Full, NotOrdered, NothingWaits};
use message::Message;
use std::alloc::{AllocError, Global};

// kept: a number of this make's own; another make may have another.
/// The most messages, ordered and waiting together: a fixed number, so that all memory is taken when the broadcast is made.
pub const CAPACITY: usize = 128;

impl OldestFirst {
    /// A broadcast with no message and the memory for all that it will hold.
    ///
    /// Refused where there is not so much memory.
    pub fn new(heap: Global) -> Result<OldestFirst, AllocError>
        ensures { IfOk result (λ b. (log_of b ≡ []) × (waiting_of b ≡ [])) }
    {
        let messages = Vec::with_capacity(heap, CAPACITY)?;
        Ok(OldestFirst { messages, count: 0 })
    }
}

/// The oldest waiting message is ordered first.
impl Broadcast for OldestFirst {
    ghost log = { log_of };

    ghost waiting = { waiting_of };

    ghost capacity = { capacity_of };

    ghost roomy = { λ b.
        let n = b.count in
        let xs = b.messages.items in
        let h : n ≤ length xs = omega arith in
        (omega (arith, log_length n xs h, bag_length n xs), omega arith, omega arith) };

    /// Empties the row.
    fn clear(&mut self) {
        self.count = 0;
        self.messages.clear();
    }

    /// Puts a message at the end of the row.
    ///
    /// Refused exactly where the row has 128 messages.
    fn offer(&mut self, message: Message) -> Result<(), Full>
        ensures log { log_of self.new ≡ log_of self.old }
        ensures waiting { Offered (capacity_of self.old) (log_of self.old) (msg_of message) (waiting_of self.old) (waiting_of self.new) result }
        ensures capacity { capacity_of self.new ≡ capacity_of self.old }
        ensures newest { OnOk result (waiting_of self.new ≡ waiting_of self.old ++ msg_of message ∷ []) }
    {
        let held = self.messages.len();
        if held >= CAPACITY {
            return Err(Full);
        }
        self.messages.push_reserved(message);
        Ok(())
    }

    /// Orders the oldest waiting message and answers its position.
    ///
    /// Refused exactly where no message waits.
    fn order(&mut self) -> Result<u64, NothingWaits>
        ensures moved { Ordered (log_of self.old) (waiting_of self.old) (log_of self.new) (waiting_of self.new) result }
        ensures capacity { capacity_of self.new ≡ capacity_of self.old }
        ensures oldest { OnOk result (FirstMoved (log_of self.old) (waiting_of self.old) (log_of self.new) (waiting_of self.new)) }
    {
        if self.count >= self.messages.len() {
            return Err(NothingWaits);
        }
        let position = self.ordered_count();
        self.count += 1;
        Ok(position)
    }

    /// How many messages are ordered.
    fn ordered_count(&self) -> u64 {
        self.count as u64
    }

    /// How many messages wait.
    fn waiting_count(&self) -> u64 {
        (self.messages.len() - self.count) as u64
    }

    /// The message at a position.
    ///
    /// Refused exactly where the position is at or past the count of ordered messages.
    fn message_at(&self, position: u64) -> Result<&Message, NotOrdered> {
        self.messages[..self.count]
            .get(position as usize)
            .ok_or(NotOrdered)
    }
}
