ghost use Rattle.std.specs.Prelude.{◌≡◌, ◌*◌, ◌<◌, ◌≤◌, [], ◌++◌, length, IfOk, ◌+◌, ◌==◌, ◌↔◌, OnErr, IfSome, IfNone, IsNone, ℕ, slice_index, ◌-◌, IfErr};
ghost use Rattle.unique_table.specs.Plans.{AreGivenBy, IsPlanFor, IsPlan, order_of, levels_of, piece_function};
ghost use Rattle.definitions.specs.Problems.{functions};
ghost use Rattle.definitions.specs.Functions.{Point};
ghost use Rattle.node_words.specs.Nodes.{node_word, AreNodeWords, AreUnequal};
ghost use Rattle.unique_table.specs.Sessions.{Knows, IsKnownBelow, Means, Follows, GoesOn, MakesStep, HasParts, IsNodeOf, MeetsFull, HasUniqueIds, HasLevels, MadeAll, GainsOnly, LiesNoHigher, combined_in, function_in, HasPiece};
ghost use Rattle.definitions.specs.Diagrams.{Represents, IsReduced};
ghost use Rattle.unique_table.specs.Stakes.{whole, half, joined};
ghost use Rattle.unique_table.specs.Closing.{IsFinalStore, LacksRoot, MayLackRoot};

use crate::atomic_steps::{Both, Words};
use crate::close::{CloseFault, ClosedStore};
use crate::create::{blank_words, cache_places, kind_of, node_places, parts_count};
use crate::plan::{Pieces, Plan};
use crate::session::{NodeId, Session, View};
use crate::words;
use atomic_table::Table;
use node_words::{NodeParts, Operation, entry_key, node_parts, node_word};
use order_model::{Diagram, Order, Problem};
use std::alloc::{AllocError, Global};
use std::marker::Model;
use std::snapshot::Snapshot;

/// A store of nodes: equal functions have equal ids. Threads share it by reference, each with a
/// session of its own.
#[derive(Drop)]
pub struct Store {
    pub(crate) table: Table<(), View, Plan, Words, Global>,
    pub(crate) places: usize,
    pub(crate) entries: usize,
    pub(crate) roots: usize,
    pub(crate) pieces: usize,
    pub(crate) order: Order,
}

impl Model for Store {
    ghost use Rattle.unique_table.specs.Sessions.{StoreId};

    ghost Value = { StoreId };

    ghost use Rattle.unique_table.specs.Insides.{store_id, IsStore};

    ghost view = { store_id };

    ghost invariant = { IsStore };
}

/// Why a node wasn't made: all node places are taken.
#[derive(Clone, Copy, Debug, PartialEq, Eq)]
pub struct StoreFull;

impl Store {
    /// Makes an empty store for the functions of `problem` under `order`, and its first session.
    /// `pieces` says how outputs are split into parts.
    pub fn new(
        alloc: Global,
        order: Order,
        problem: &Problem,
        pieces: Pieces<'_>,
    ) -> Result<(Store, Session), AllocError>
        requires inputs { problem.now.inputs ≡ length order }
        requires terms { AreGivenBy pieces problem.now }
        ensures plan { IfOk result (λ r. IsPlanFor r.0.plan order problem.now pieces.entry) }
        ensures session { IfOk result
            (λ r. r.1 ≡
            record { store = r.0; stake = whole; seen = []; made = []; pieces = []; steps = 0; writes = 0 }) }
    {
        let kind = kind_of(alloc, pieces)?;
        let places = node_places();
        let entries = cache_places();
        let outputs = problem.outputs();
        let roots = parts_count(&kind, &order, outputs);
        let pieces = roots + usize::from(outputs);
        let plan = Plan {
            places,
            entries,
            roots,
            pieces,
            order: Snapshot::of(&order),
            problem: Snapshot::of(problem),
            kind,
        };
        let words = blank_words(places + entries + pieces);
        let (table, seat) = Table::of_words(alloc, words, &plan)?;
        let store = Store {
            table,
            places,
            entries,
            roots,
            pieces,
            order,
        };
        Ok((store, Session { seat }))
    }

    /// The order of the store's variables, top first.
    pub fn order(&self) -> &Order
        ensures value { result.now ≡ order_of self.now.plan }
        ensures plan { IsPlan self.now.plan }
    {
        &self.order
    }

    /// The number of pieces: the parts of all outputs, then the outputs.
    pub fn pieces(&self) -> usize
        ensures value { result ≡ self.now.plan.pieces }
        ensures plan { IsPlan self.now.plan }
    {
        self.pieces
    }

    /// The number of parts of outputs, which is also the number of the piece that is output 0.
    pub fn roots(&self) -> usize
        ensures value { result ≡ self.now.plan.roots }
        ensures plan { IsPlan self.now.plan }
    {
        self.roots
    }

    /// The number of places of the operation cache.
    pub fn cache_places(&self) -> usize
        ensures value { result ≡ self.now.plan.entries }
        ensures plan { IsPlan self.now.plan }
    {
        self.entries
    }

    /// Law: ids that `session` knows are equal if they denote the same function. If it is the
    /// store's only session, each node that it knows was made by it or by one that it was split or
    /// joined from. The call does nothing.
    pub fn canonical_ids(&self, session: &Session)
        requires { session.now.store ≡ self.now }
        ensures unique { HasUniqueIds session.now }
        ensures levels { HasLevels session.now }
        ensures nodes { AreNodeWords (levels_of self.now.plan) session.now.seen }
        ensures unequal { AreUnequal session.now.seen }
        ensures size { length session.now.seen ≤ self.now.plan.places }
        ensures made { MadeAll session.now }
    {
        let _table = &self.table;
        let _seat = &session.seat;
    }

    /// The id of the node of `level` with these children, which is put into the store if it isn't
    /// there, or of the child if they are equal. Makes at most two atomic steps per node place.
    /// After an error nothing is written.
    pub fn make(
        &self,
        session: &mut Session,
        level: u8,
        low: NodeId,
        high: NodeId,
    ) -> Result<NodeId, StoreFull>
        requires session { session.old.store ≡ self.now }
        requires level { level < levels_of self.now.plan }
        requires low { IsKnownBelow session.old level low }
        requires high { IsKnownBelow session.old level high }
        ensures goes_on { GoesOn session.old session.new (2 * self.now.plan.places) }
        ensures node { IfOk result (IsNodeOf session.new level low high) }
        ensures made { GainsOnly session.old.made session.new.made (node_word level low high) }
        ensures full { OnErr result (MeetsFull session.old session.new (node_word level low high)) }
    {
        let places = self.places;
        let seat = &mut session.seat;
        if low == high {
            return Ok(low);
        }
        let word = node_word(level, low, high);
        let Some(place) = words::find_or_put(&self.table.shared, seat, places, word) else {
            return Err(StoreFull);
        };
        Ok(place as u32 + 2)
    }

    /// The level and the children of the node with the id `id`. None for a terminal. Makes at most
    /// one atomic step.
    pub fn node(&self, session: &mut Session, id: NodeId) -> Option<NodeParts>
        requires session { session.old.store ≡ self.now }
        requires known { Knows session.old id }
        ensures goes_on { GoesOn session.old session.new 1 }
        ensures terminal { IsNone result ↔ (id < 2) }
        ensures constant { IfNone result ((p : Point) → function_in session.new id p ≡ (id == 1)) }
        ensures parts { IfSome result (λ parts. HasParts session.new id parts) }
        ensures made { session.new.made ≡ session.old.made }
        ensures writes { session.new.writes ≡ session.old.writes }
    {
        let shared = &self.table.shared;
        let seat = &mut session.seat;
        if id < 2 {
            return None;
        }
        let word = words::look(shared, seat, id as usize - 2);
        Some(node_parts(word))
    }

    /// The id of the result of `operation`, if place `place` of the operation cache has it. Makes
    /// one atomic step.
    pub fn entry(
        &self,
        session: &mut Session,
        place: usize,
        operation: Operation,
        first: NodeId,
        second: NodeId,
    ) -> Option<NodeId>
        requires session { session.old.store ≡ self.now }
        requires place { place < self.now.plan.entries }
        requires known { Knows session.old first × Knows session.old second }
        ensures step { MakesStep session.old session.new 0 }
        ensures function { IfSome result
            (λ id. Means session.new id (combined_in session.new operation first second)) }
        ensures level { IfSome result (LiesNoHigher session.new first second) }
    {
        let at = self.places + place;
        let seat = &mut session.seat;
        let key = entry_key(operation, first, second);
        let word = words::recall(&self.table.shared, seat, at, place);
        if word >> 20 != key {
            return None;
        }
        Some((word % (1 << 20)) as u32)
    }

    /// Stores `id` in place `place` of the operation cache, over what is there, as the result of
    /// `operation`. Makes one atomic step.
    pub fn set_entry(
        &self,
        session: &mut Session,
        place: usize,
        operation: Operation,
        first: NodeId,
        second: NodeId,
        id: NodeId,
    )
        requires session { session.old.store ≡ self.now }
        requires place { place < self.now.plan.entries }
        requires known { Knows session.old first × Knows session.old second }
        requires function { Means session.old id (combined_in session.old operation first second) }
        ensures step { MakesStep session.old session.new 1 }
    {
        let at = self.places + place;
        let seat = &mut session.seat;
        let key = entry_key(operation, first, second);
        let word = (key << 20) + u64::from(id);
        words::remember(&self.table.shared, seat, at, place, word);
    }

    /// Publishes `id` to all sessions as the id of piece `piece`. Makes one atomic step.
    pub fn publish(&self, session: &mut Session, piece: usize, id: NodeId)
        requires session { session.old.store ≡ self.now }
        requires piece { piece < self.now.plan.pieces }
        requires function { Means session.old id (piece_function self.now.plan piece) }
        ensures step { MakesStep session.old session.new 1 }
        ensures stored { HasPiece session.new piece id }
    {
        let place = self.places + self.entries + piece;
        words::publish(&self.table.shared, &mut session.seat, place, piece, id);
    }

    /// The published id of piece `piece`, or None if `session` sees none. Makes one atomic step.
    pub fn collect(&self, session: &mut Session, piece: usize) -> Option<NodeId>
        requires session { session.old.store ≡ self.now }
        requires piece { piece < self.now.plan.pieces }
        ensures step { MakesStep session.old session.new 0 }
        ensures stored { IfSome result (λ id. HasPiece session.new piece id) }
        ensures function { IfSome result
            (λ id. Means session.new id (piece_function self.now.plan piece)) }
        ensures none { IfNone result (slice_index session.new.pieces piece ≡ 0) }
    {
        let place = self.places + self.entries + piece;
        let word = words::collect(&self.table.shared, &mut session.seat, place, piece);
        if word == 0 {
            return None;
        }
        Some((word - 1) as u32)
    }

    /// Splits `session` in two, which know what it knew and have half of its stake each. Makes one
    /// atomic step. The first one keeps the counts of steps and writes; those of the second begin
    /// at 0.
    pub fn split(&self, session: Session) -> (Session, Session)
        requires { session.store ≡ self.now }
        ensures first { result.0 ≡
            record session { stake = half session.stake; steps = session.steps + 1 } }
        ensures second { result.1 ≡
            record session { stake = half session.stake; steps = 0; writes = 0 } }
    {
        let Session { mut seat } = session;
        let other = self.table.shared.split_seat::<Both>(&mut seat);
        (Session { seat }, Session { seat: other })
    }

    /// Joins two sessions into one, with the sum of their stakes and of their counts. Makes two
    /// atomic steps.
    pub fn join(&self, one: Session, two: Session) -> Session
        requires one { one.store ≡ self.now }
        requires two { two.store ≡ self.now }
        ensures one { Follows one result }
        ensures two { Follows two result }
        ensures stake { result.stake ≡ joined one.stake two.stake }
        ensures made { result.made ≡ one.made ++ two.made }
        ensures unique { HasUniqueIds result }
        ensures steps { result.steps ≡ one.steps + two.steps + 2 }
        ensures writes { result.writes ≡ one.writes + two.writes }
    {
        let Session { mut seat } = one;
        let Session { seat: other } = two;
        self.table.shared.join_seat::<Both>(&mut seat, other);
        words::look(&self.table.shared, &mut seat, 0);
        Session { seat }
    }

    /// Closes the store, so that no word changes any more. Other sessions may have published roots
    /// that `session` doesn't know of.
    pub fn into_closed(self, session: Session) -> ClosedStore
        requires { session.store ≡ self }
        ensures plan { result.plan ≡ self.plan }
        ensures last { IsFinalStore session result }
    {
        let store = Snapshot::of(&self);
        let places = self.places;
        let first = places + self.entries + self.roots;
        let roots = (self.pieces - self.roots) as u8;
        let Store { table, order, .. } = self;
        let Session { seat } = session;
        ClosedStore {
            closed: table.close_with(seat),
            places,
            first,
            roots,
            order,
            store,
        }
    }

    /// Closes the store and makes the reduced diagram of its functions. Roots count that other
    /// sessions published, even if `session` doesn't know of them.
    pub fn close(
        self,
        alloc: Global,
        session: Session,
    ) -> Result<Diagram, (ClosedStore, CloseFault)>
        requires { session.store ≡ self }
        ensures order { IfOk result (λ d. d.order ≡ order_of self.plan) }
        ensures diagram { IfOk result
            (λ d. Represents (levels_of self.plan) (functions self.plan.problem.value)
            (order_of self.plan) d.graph) }
        ensures reduced { IfOk result (λ d. IsReduced d.graph) }
        ensures last { IfErr result (λ e. IsFinalStore session e.0) }
        ensures lacks { IfErr result (λ e. LacksRoot e.0 e.1) }
        ensures missing { IfErr result (λ e. MayLackRoot session e.1) }
    {
        self.into_closed(session).diagram(alloc)
    }
}
