//! Lists of acts.
ghost use Rattle.std.specs.Prelude.{◌≡◌, ◌+◌, ◌≤◌, length, vec_len, vec_capacity, nat_le};
ghost use Rattle.ensemble.specs.Whole.{state};
ghost use Rattle.playing.specs.declared.plays.Unplayed.TheVariants.{Servers};
ghost use Rattle.playing.specs.Plays.{Played, Plays, NewPlayed};

use crate::performing::perform;
use bank::{DatabaseBank, ReplicaBank};
use broadcast::Broadcast;
use ensemble::{Ensemble, Unmade};
use pronto::{Act, Entry};

/// The history has too little room for these acts.
#[derive(Clone, Copy, PartialEq, Eq)]
pub struct NoRoom;

/// Why a list was not played: broadcast and databases are handed back, unused.
#[derive(Drop)]
pub enum Unplayed<B, K> {
    /// The history has too little room for these acts.
    Room(Unmade<B, K>),
    /// The number of servers is 0, above 8, or above the number of databases (number 19).
    Servers(Unmade<B, K>),
}

impl<B, K> From<Unmade<B, K>> for Unplayed<B, K> {
    ghost from_gives = { λ unmade unplayed. unplayed ≡ Servers unmade };

    fn from(unmade: Unmade<B, K>) -> Unplayed<B, K> {
        Unplayed::Servers(unmade)
    }
}

/// Whether the history has room left for the acts.
fn has_room(acts: &[Act], history: &Vec<Entry>) -> bool
    ensures { result ≡ nat_le (vec_len history.now + length acts.now) (vec_capacity history.now) }
{
    acts.len() <= history.capacity() - history.len()
}

/// Performs the acts in order, and notes each with its answer.
fn perform_all<B: Broadcast, K: DatabaseBank>(
    ensemble: &mut Ensemble<B, K>,
    acts: &[Act],
    history: &mut Vec<Entry>,
)
    requires { vec_len history.old + length acts.now ≤ vec_capacity history.old }
    ensures { Played acts.now history.old.items history.new.items (state B.Broadcast K.ReplicaBank K.DatabaseBank.own ensemble.old) (state B.Broadcast K.ReplicaBank K.DatabaseBank.own ensemble.new) }
{
    for act in acts {
        let answer = perform(ensemble, *act);
        history.push_reserved(Entry { act: *act, answer });
    }
}

/// Plays a list of acts, and adds each with its answer to the history. Where the ensemble came from a new one by acts, the law holds of
/// both moments.
///
/// Refused exactly where the history has too little room left; then nothing changes.
pub fn play<B: Broadcast, K: DatabaseBank>(
    ensemble: &mut Ensemble<B, K>,
    acts: &[Act],
    history: &mut Vec<Entry>,
) -> Result<(), NoRoom>
    ensures { Plays result acts.now (vec_len history.old) (vec_capacity history.old) history.old.items history.new.items (state B.Broadcast K.ReplicaBank K.DatabaseBank.own ensemble.old) (state B.Broadcast K.ReplicaBank K.DatabaseBank.own ensemble.new) }
{
    if !has_room(acts, history) {
        return Err(NoRoom);
    }
    perform_all(ensemble, acts, history);
    Ok(())
}

/// Makes a new ensemble, plays a list of acts on it, and adds each with its answer to the history. The law holds of the result, and of
/// every moment on the way.
///
/// Refused exactly where the history has too little room left, and then where the number of servers is 0, above 8, or above the number of
/// databases; then nothing changes.
pub fn play_new<B: Broadcast, K: DatabaseBank>(
    broadcast: B,
    bank: K,
    servers: u64,
    acts: &[Act],
    history: &mut Vec<Entry>,
) -> Result<Ensemble<B, K>, Unplayed<B, K>>
    ensures { NewPlayed B.Broadcast K.ReplicaBank K.DatabaseBank.own broadcast bank servers acts.now (vec_len history.old) (vec_capacity history.old) history.old.items history.new.items result }
{
    if !has_room(acts, history) {
        return Err(Unplayed::Room(Unmade { broadcast, bank }));
    }
    let mut ensemble = Ensemble::new(broadcast, bank, servers)?;
    perform_all(&mut ensemble, acts, history);
    Ok(ensemble)
}
