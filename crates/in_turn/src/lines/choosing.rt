//! Which waiting message is ordered next.
ghost use Rattle.std.specs.Prelude.{◌≡◌, [], MatchOption};
ghost use Rattle.message.specs.Messages.{msg_of};
ghost use Rattle.in_turn.specs.Turns.{line_of, waiting_of, turn_of, Empty, OldestIn, Chosen};

use super::InTurn;
use message::Message;

/// The lines: an ensemble has at most eight servers, so that each has a line of its own.
pub const LINES: usize = 8;

// The line in which a message waits.
pub(super) fn line_of(message: &Message) -> usize
    ensures { result ≡ line_of (msg_of message.now) }
{
    usize::from(message.sender()) % LINES
}

impl InTurn {
    // The place of the oldest waiting message of a line.
    fn oldest_in(&self, line: usize) -> Option<usize>
        ensures { MatchOption result (Empty line (waiting_of self.now)) (OldestIn line (waiting_of self.now)) }
    {
        self.waiting
            .iter()
            .position(|message| line_of(message) == line)
    }

    // The place of the message to order next: the oldest of the first line, from the one whose turn it is, that is not empty.
    pub(super) fn chosen(&self) -> Option<usize>
        ensures { MatchOption result (waiting_of self.now ≡ []) (Chosen (turn_of self.now) (waiting_of self.now)) }
    {
        (0..LINES).find_map(|steps| self.oldest_in((self.next + steps) % LINES))
    }
}
