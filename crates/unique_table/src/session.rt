use crate::plan::Plan;
use atomic_table::Seat;
use std::marker::Model;

/// The id of a node: 0 and 1 are the terminals, and the node at place p of the store has p + 2.
pub type NodeId = u32;

/// What a thread knows of a store.
#[derive(Drop)]
pub struct Session {
    pub(crate) seat: Seat<(), View>,
}

impl Model for Session {
    ghost use Rattle.unique_table.specs.Sessions.{Knowledge};

    ghost Value = { Knowledge };

    ghost use Rattle.unique_table.specs.Insides.{knowledge, IsSession};

    ghost view = { knowledge };

    ghost invariant = { IsSession };
}

/// How much of a store a session has, for contracts alone. One with all of it is the only one.
pub struct Stake {
    pub units: u64,
    /// The whole store is 2^`halvings` units.
    pub halvings: u64,
}

/// What a session knows, for contracts alone.
pub struct View {
    /// False once the session was joined into another one.
    pub live: bool,
    /// False from a join into the session until the session's next step.
    pub current: bool,
    pub stake: Stake,
    pub plan: Plan,
    /// The node word of each place as the session saw it, or 0.
    pub seen: [u64; 0],
    /// The node words that a session joined into this one knew. Empty from the next step on.
    pub received: [u64; 0],
    /// The node words that this session, or one that it was split or joined from, put into the
    /// store.
    pub made: [u64; 0],
    /// The word of each piece as the session saw it: the published id plus 1, or 0.
    pub pieces: [u64; 0],
    /// The words of pieces that a session joined into this one knew. Empty from the next step on.
    pub pieces_received: [u64; 0],
    /// The atomic steps of this session and of those joined into it.
    pub steps: u64,
    /// Those of a kind that can write a word.
    pub writes: u64,
}
