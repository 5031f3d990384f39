//! Offering, ordering and reading.
ghost use Rattle.std.specs.Prelude.{◌≡◌, [], ◌∷◌, ◌++◌, IfOk, OnOk};
ghost use Rattle.message.specs.Messages.{msg_of};
ghost use Rattle.broadcast.specs.Bags.{Offered, Ordered};
ghost use Rattle.in_turn.specs.Turns.{log_of, waiting_of, capacity_of, turn_of, Taken};
ghost use Rattle.std.proofs.Common.{arith};
ghost use Rattle.std.proofs.lemmas.List.{length-map};

use super::InTurn;
use super::choosing::{LINES, line_of};
use broadcast::{Broadcast, Full, NotOrdered, NothingWaits};
use message::Message;
use std::alloc::{AllocError, Global};

// kept: a number of this make's own; another make may have another.
/// The most messages, ordered and waiting together: a fixed number, so that all memory is taken when the broadcast is made.
pub const CAPACITY: usize = 128;

impl InTurn {
    /// A broadcast with no message, the turn at line 0, and the memory for all that it will hold.
    ///
    /// Refused where there is not so much memory.
    pub fn new(heap: Global) -> Result<InTurn, AllocError>
        ensures { IfOk result (λ b. (log_of b ≡ []) × (waiting_of b ≡ []) × (turn_of b ≡ 0)) }
    {
        let ordered = Vec::with_capacity(heap, CAPACITY)?;
        let waiting = Vec::with_capacity(heap, CAPACITY)?;
        Ok(InTurn {
            ordered,
            waiting,
            next: 0,
        })
    }
}

/// The lines take turns, empty ones are passed over, and within a line the oldest message is first.
impl Broadcast for InTurn {
    ghost log = { log_of };

    ghost waiting = { waiting_of };

    ghost capacity = { capacity_of };

    ghost roomy = { λ b. (omega (arith, length-map b.ordered.items msg_of, length-map b.waiting.items msg_of), omega arith, omega arith) };

    /// Removes all messages and gives the turn to line 0.
    fn clear(&mut self)
        ensures log { log_of self.new ≡ [] }
        ensures waiting { waiting_of self.new ≡ [] }
        ensures capacity { capacity_of self.new ≡ capacity_of self.old }
        ensures turn { turn_of self.new ≡ 0 }
    {
        self.ordered.clear();
        self.waiting.clear();
        self.next = 0;
    }

    /// Puts a message at the end of its sender's line.
    ///
    /// Refused exactly where there are 128 messages, ordered and waiting together.
    fn offer(&mut self, message: Message) -> Result<(), Full>
        ensures log { log_of self.new ≡ log_of self.old }
        ensures waiting { Offered (capacity_of self.old) (log_of self.old) (msg_of message) (waiting_of self.old) (waiting_of self.new) result }
        ensures capacity { capacity_of self.new ≡ capacity_of self.old }
        ensures newest { OnOk result (waiting_of self.new ≡ waiting_of self.old ++ msg_of message ∷ []) }
        ensures turn { turn_of self.new ≡ turn_of self.old }
    {
        let held = self.ordered.len() + self.waiting.len();
        if held >= CAPACITY {
            return Err(Full);
        }
        self.waiting.push_reserved(message);
        Ok(())
    }

    /// Orders the oldest message of the first line that is not empty, from the line whose turn it is, and answers its position.
    /// The line after that one is next.
    ///
    /// Refused exactly where no message waits.
    fn order(&mut self) -> Result<u64, NothingWaits>
        ensures moved { Ordered (log_of self.old) (waiting_of self.old) (log_of self.new) (waiting_of self.new) result }
        ensures capacity { capacity_of self.new ≡ capacity_of self.old }
        ensures turn { Taken self.old self.new result }
    {
        let place = self.chosen().ok_or(NothingWaits)?;
        let position = self.ordered_count();
        let message = self.waiting.remove(place);
        self.next = (line_of(&message) + 1) % LINES;
        self.ordered.push_reserved(message);
        Ok(position)
    }

    /// How many messages are ordered.
    fn ordered_count(&self) -> u64 {
        self.ordered.len() as u64
    }

    /// How many messages wait.
    fn waiting_count(&self) -> u64 {
        self.waiting.len() as u64
    }

    /// The message at a position.
    ///
    /// Refused exactly where the position is at or past the count of ordered messages.
    fn message_at(&self, position: u64) -> Result<&Message, NotOrdered> {
        self.ordered.get(position as usize).ok_or(NotOrdered)
    }
}
