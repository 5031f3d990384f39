//! Judging a message from the log alone, in one pass.
ghost use Rattle.std.specs.Prelude.{◌≡◌, ◌+◌, ◌≤◌, length};
ghost use Rattle.message.specs.Messages.{msg_of};
ghost use Rattle.journal.specs.Judging.{Summary, next, at};
ghost use Rattle.journal.specs.Verdicts.{Knows, JudgesAt, Leads};

use crate::verdicts::Judgement;
use broadcast::{Broadcast, NotOrdered};
use message::Message;

/// The server that leads an epoch among `servers`; `None` exactly where there are no servers.
pub fn primary(servers: u64, epoch: u64) -> Option<u64>
    ensures { Leads result servers epoch }
{
    // kept: the rule in its order; `checked_rem` and `map` would begin with the remainder.
    if servers == 0 {
        return None;
    }
    Some(epoch.saturating_sub(1) % servers + 1)
}

/// What the messages so far come to, for one client's job.
#[derive(Clone, Copy)]
struct Standing {
    epoch: u64,
    earlier: Option<u64>,
}

impl Standing {
    /// One message further, the one at `position`.
    // kept: client and job as two, here and in `before`: a message holds them apart, and `TransactionId` is defined in a crate above this one.
    fn past(self, position: u64, message: &Message, client: u8, job: u32) -> Standing
        requires { self.epoch ≤ 4096 }
        ensures slow { result.epoch ≤ self.epoch + 1 }
        ensures step { (j : Summary) → j.count ≡ position → Knows self j client job → Knows result (next j (msg_of message.now)) client job }
    {
        match message {
            Message::Epoch(change) => {
                if change.epoch != self.epoch {
                    return self;
                }
                Standing {
                    epoch: self.epoch + 1,
                    ..self
                }
            }
            Message::Transaction(t) => {
                if t.epoch != self.epoch {
                    return self;
                }
                if t.client != client {
                    return self;
                }
                if t.job != job {
                    return self;
                }
                Standing {
                    earlier: self.earlier.or(Some(position)),
                    ..self
                }
            }
        }
    }
}

/// The epoch in force before a position, and where the client's job was committed.
fn before<B: Broadcast>(broadcast: &B, position: u64, client: u8, job: u32) -> Standing
    requires { position ≤ length (B.Broadcast.log broadcast.now) }
    ensures { Knows result (at (B.Broadcast.log broadcast.now) position) client job }
{
    let mut so_far = Standing {
        epoch: 1,
        earlier: None,
    };
    // kept: a broadcast lends its messages by position, with no iterator, and the standing notes the position.
    for q in 0..position {
        let message = broadcast.message_at(q).unwrap();
        so_far = so_far.past(q, message, client, job);
    }
    so_far
}

/// The judgement of the message at a position.
///
/// Refused exactly where the position is at or past the count of ordered messages.
pub fn judge<B: Broadcast>(broadcast: &B, position: u64) -> Result<Judgement, NotOrdered>
    ensures { JudgesAt (B.Broadcast.log broadcast.now) position result }
{
    let message = broadcast.message_at(position)?;
    match message {
        Message::Epoch(change) => {
            let then = before(broadcast, position, 0, 0);
            if change.epoch != then.epoch {
                return Ok(Judgement::Stale);
            }
            Ok(Judgement::Accepted)
        }
        Message::Transaction(t) => {
            let then = before(broadcast, position, t.client, t.job);
            if t.epoch != then.epoch {
                return Ok(Judgement::Late);
            }
            // kept: a `match` that names both judgements; `map_or` would name the second one first.
            match then.earlier {
                Some(earlier) => Ok(Judgement::Again(earlier)),
                None => Ok(Judgement::Committed),
            }
        }
    }
}
