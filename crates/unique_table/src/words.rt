//! The atomic steps on the words of a store.

ghost use Rattle.std.specs.Prelude.{◌≡◌, ◌≢◌, ◌+◌, ◌-◌, ◌*◌, ◌^◌, ◌<◌, ◌≤◌, slice_index, MatchBool, IfSome, IfNone};
ghost use Rattle.node_words.specs.Nodes.{IsTaken, IsFullFor};
ghost use Rattle.node_words.specs.Meaning.{Denotes};
ghost use Rattle.node_words.specs.Entries.{IsEntry};
ghost use Rattle.unique_table.specs.Plans.{order_of, piece_function};
ghost use Rattle.unique_table.specs.Invariant.{putting};
ghost use Rattle.unique_table.specs.Views.{After};
ghost use Rattle.unique_table.specs.Seats.{IsSeatOf, IsSeatAfter, Searches, IsNodePlace, IsEntryPlace, IsPiecePlace, IsNodeWord, MayPut};

use crate::atomic_steps::{Collects, Looks, Publishes, Puts, Recalls, Remembers, Words};
use crate::plan::Plan;
use crate::session::View;
use atomic_table::{Seat, Shared};
use node_words::{probe, start};

type SharedWords = Shared<(), View, Plan, Words>;

/// Loads the word of node place `place`, which the seat knows from then on: 0 if it is empty.
pub(crate) fn look(shared: &SharedWords, seat: &mut Seat<(), View>, place: usize) -> u64
    requires seat { IsSeatOf shared.now seat.old }
    requires place { IsNodePlace shared.now place }
    ensures step { IsSeatAfter shared.now seat.old seat.new 0 }
    ensures found { slice_index seat.new.me.0.seen place ≡ result }
{
    shared.load::<Looks>(seat, place)
}

/// Stores the node word `word` at node place `place` if that is empty. Returns the word before, 0
/// if it was. All places before this one in the search for `word` must have other nodes.
fn put(shared: &SharedWords, seat: &mut Seat<(), View>, place: usize, word: u64) -> u64
    requires { MayPut shared.now seat.old word place }
    ensures seat { IsSeatOf shared.now seat.new }
    ensures empty { result ≡ 0 →
        After (putting word seat.old.me.0) seat.new.me.0 1
        × (slice_index seat.new.me.0.seen place ≡ word) }
    ensures full { result ≢ 0 →
        After seat.old.me.0 seat.new.me.0 0 × (slice_index seat.new.me.0.seen place ≡ result) }
{
    shared.compare_exchange::<Puts>(seat, place, 0, word)
}

/// Puts `word` at node place `place` if that is empty. Returns whether the place then has `word`.
pub(crate) fn take(shared: &SharedWords, seat: &mut Seat<(), View>, place: usize, word: u64) -> bool
    requires { MayPut shared.now seat.old word place }
    ensures searches { Searches shared.now seat.old seat.new word 2 }
    ensures found { MatchBool result (slice_index seat.new.me.0.seen place ≡ word)
        (IsTaken seat.new.me.0.seen word place) }
    ensures writes { MatchBool result (Unit {0}) (seat.new.me.0.writes ≡ seat.old.me.0.writes) }
{
    let seen = look(shared, seat, place);
    if seen != 0 {
        return seen == word;
    }
    let found = put(shared, seat, place, word);
    found == 0 || found == word
}

/// Stores `id` plus 1 as the word of piece `piece`, whose index among all words is `place`.
pub(crate) fn publish(
    shared: &SharedWords,
    seat: &mut Seat<(), View>,
    place: usize,
    piece: usize,
    id: u32,
)
    requires seat { IsSeatOf shared.now seat.old }
    requires place { IsPiecePlace shared.now piece place }
    requires piece { piece < shared.now.key.pieces }
    requires function { Denotes (order_of shared.now.key) seat.old.me.0.seen id
        (piece_function shared.now.key piece) }
    ensures step { IsSeatAfter shared.now seat.old seat.new 1 }
    ensures stored { slice_index seat.new.me.0.pieces piece ≡ id + 1 }
{
    shared.store::<Publishes>(seat, place, u64::from(id) + 1);
}

/// Loads the word of piece `piece`: 0 if the seat sees no published id, else the id plus 1.
pub(crate) fn collect(
    shared: &SharedWords,
    seat: &mut Seat<(), View>,
    place: usize,
    piece: usize,
) -> u64
    requires seat { IsSeatOf shared.now seat.old }
    requires place { IsPiecePlace shared.now piece place }
    ensures step { IsSeatAfter shared.now seat.old seat.new 0 }
    ensures found { slice_index seat.new.me.0.pieces piece ≡ result }
{
    shared.load::<Collects>(seat, place)
}

/// Loads the word of entry `entry` of the operation cache: 0 if it is empty.
pub(crate) fn recall(
    shared: &SharedWords,
    seat: &mut Seat<(), View>,
    place: usize,
    entry: usize,
) -> u64
    requires seat { IsSeatOf shared.now seat.old }
    requires place { IsEntryPlace shared.now entry place }
    ensures step { IsSeatAfter shared.now seat.old seat.new 0 }
    ensures found { result ≢ 0 → IsEntry (order_of shared.now.key) seat.new.me.0.seen result }
{
    shared.load::<Recalls>(seat, place)
}

/// Stores `word` in entry `entry` of the operation cache.
pub(crate) fn remember(
    shared: &SharedWords,
    seat: &mut Seat<(), View>,
    place: usize,
    entry: usize,
    word: u64,
)
    requires seat { IsSeatOf shared.now seat.old }
    requires place { IsEntryPlace shared.now entry place }
    requires word { IsEntry (order_of shared.now.key) seat.old.me.0.seen word }
    ensures step { IsSeatAfter shared.now seat.old seat.new 1 }
{
    shared.store::<Remembers>(seat, place, word);
}

/// Searches the node places for `word`, and stores it at the first empty place if it isn't there.
/// Returns its place. None, and nothing is written, if each place has another word.
pub(crate) fn find_or_put(
    shared: &SharedWords,
    seat: &mut Seat<(), View>,
    places: usize,
    word: u64,
) -> Option<usize>
    requires seat { IsSeatOf shared.now seat.old }
    requires places { (places ≡ shared.now.key.places) × (places ≤ shared.now.table_id.words) }
    requires count { (0 < places) × (places < 2 ^ 32) }
    requires word { IsNodeWord shared.now seat.old word }
    ensures searches { Searches shared.now seat.old seat.new word (2 * places) }
    ensures found { IfSome result
        (λ place. (place < places) × (slice_index seat.new.me.0.seen place ≡ word)) }
    ensures full { IfNone result (IsFullFor seat.new.me.0.seen places word) }
    ensures writes { IfNone result (seat.new.me.0.writes ≡ seat.old.me.0.writes) }
{
    let start = start(places, word);
    for passed in 0..places {
        let place = probe(start, passed, places);
        if take(shared, seat, place, word) {
            return Some(place);
        }
    }
    None
}
