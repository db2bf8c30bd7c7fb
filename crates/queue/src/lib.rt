// The queue of a station: which message is its head, which of several stands first, which place an entry has, and whether "every local cart in the copy is in the ack list".
#![tactic(auto)]

ghost use Rattle.std.specs.Prelude.{◌≡◌, ◌&&◌, [], ◌<◌, ltb};
ghost use Rattle.protocol.specs.CartSets.{has, minus};
ghost use Rattle.protocol.specs.Wireless.{head_among};
ghost use Rattle.sets.specs.Masks.{disjoint};
ghost use Rattle.stations.specs.View.{rooms, HasStation, stations_in};
ghost use Rattle.messages.specs.View.{HasRoom, rooms_in};
ghost use Rattle.queue.specs.Rooms.{tables_floor, room_count, HasRooms, QueueRooms, room_code, room_at};
ghost use Rattle.queue.specs.Places.{is_before, is_ahead, place_among};
ghost use Rattle.queue.specs.Keys.{InKey, key_of, Keyed, KeyedRooms, has_entry, first_among, first_of, best_with};

use ids::Station;

// The word for no room.
const NONE: usize = 32;

// The room that stands first so far, or none, and its key. The room is a bare word, since each word is chosen by itself, without a branch, at every entry.
#[derive(Clone, Copy)]
struct Best {
    head: usize,
    key: u64,
}

// The room that a word says, or none.
fn room_in(word: usize) -> Option<usize>
    ensures { result ≡ room_code (room_at word) }
{
    if word < NONE { Some(word) } else { None }
}

// "smallest number first; between equal numbers the higher initiator stands first": of two messages, the one with the smaller key.
fn key_of(messages: &[u64], m: usize) -> u64
    requires { HasRoom messages.now m × InKey ((rooms_in messages.now).number m) ((rooms_in messages.now).initiator m) }
    ensures { result ≡ key_of ((rooms_in messages.now).number m) ((rooms_in messages.now).initiator m) }
{
    let number = messages::number_of(messages, m).0;
    let initiator = messages::initiator_of(messages, m).0;
    number * 16 + 15 - initiator
}

// The first of that room and room m. Which key is smaller cannot be guessed: each word is chosen by itself, without a branch.
fn first_of(best: Best, m: usize, key: u64) -> Best
    ensures { result ≡ first_of best m key }
{
    Best {
        head: if key < best.key { m } else { best.head },
        key: if key < best.key { key } else { best.key },
    }
}

// The first once room m is looked at too. "A queue has one entry per message": an empty entry is none.
fn best_with(stations: &[u64], messages: &[u64], station: Station, m: usize, best: Best) -> Best
    requires { HasStation stations.now station.0 × QueueRooms stations.now messages.now station.0 × (m < rooms) × Keyed (tables_floor stations.now messages.now) station.0 }
    ensures { result ≡ best_with (tables_floor stations.now messages.now) (has_entry (tables_floor stations.now messages.now) station.0) m best }
{
    if stations::queue_of(stations, m, station) == 0 {
        return best;
    }
    first_of(best, m, key_of(messages, m))
}

// "the head message of the queue": its room, or none. Only rooms that have an entry are looked at.
pub fn head(stations: &[u64], messages: &[u64], station: Station) -> Option<usize>
    requires { HasStation stations.now station.0 × QueueRooms stations.now messages.now station.0 × Keyed (tables_floor stations.now messages.now) station.0 }
    ensures { result ≡ room_code (head_among (tables_floor stations.now messages.now) station.0 32) }
{
    let mut best = Best {
        head: NONE,
        key: u64::MAX,
    };
    for m in sets::members_of(stations::entries_of(stations, station)) {
        let m = m as usize;
        best = best_with(stations, messages, station, m, best);
    }
    room_in(best.head)
}

// Of the messages in these rooms, the one that stands first in a queue: its room, or none.
pub fn first_among(messages: &[u64], among: u64) -> Option<usize>
    requires { KeyedRooms messages.now among }
    ensures { result ≡ room_code (first_among (tables_floor [] messages.now) (has among) 32) }
{
    let mut best = Best {
        head: NONE,
        key: u64::MAX,
    };
    for m in sets::members_of(among) {
        let m = m as usize;
        best = first_of(best, m, key_of(messages, m));
    }
    room_in(best.head)
}

// Does the message in room k stand before that in room m: "smallest number first; between equal numbers the higher initiator stands first"? All four
// numbers are read first, so that it is chosen without a branch.
fn is_before(messages: &[u64], k: usize, m: usize) -> bool
    requires { HasRoom messages.now k × HasRoom messages.now m }
    ensures { result ≡ is_before (rooms_in messages.now) k m }
{
    let number = messages::number_of(messages, k).0;
    let initiator = messages::initiator_of(messages, k).0;
    let its_number = messages::number_of(messages, m).0;
    let its_initiator = messages::initiator_of(messages, m).0;
    if number == its_number {
        its_initiator < initiator
    } else {
        number < its_number
    }
}

// Is room k one of the table's, with an entry at the station that stands before the message in room m? An empty entry is none.
fn is_ahead(stations: &[u64], messages: &[u64], station: Station, k: usize, m: usize) -> bool
    requires { HasStation stations.now station.0 × (k < rooms) × HasRoom messages.now m }
    ensures { result ≡ (ltb k (room_count messages.now) && is_ahead (stations_in stations.now) (rooms_in messages.now) station.0 m k) }
{
    if messages.len() < k * 7 + 7 {
        return false;
    }
    if stations::queue_of(stations, k, station) == 0 {
        return false;
    }
    is_before(messages, k, m)
}

// "the entry's place, 1 for the head": how many entries of the queue stand before the message in room m, and one. Its own does not, and is not looked at.
pub fn place_of(stations: &[u64], messages: &[u64], station: Station, m: usize) -> u64
    requires { HasStation stations.now station.0 × HasRooms messages.now × HasRoom messages.now m }
    ensures { result ≡ place_among (stations_in stations.now) (rooms_in messages.now) station.0 m (room_count messages.now) }
{
    let mut before: u64 = 0;
    let others = sets::without_member(stations::entries_of(stations, station), m as u64);
    for k in sets::members_of(others) {
        before += u64::from(is_ahead(stations, messages, station, k as usize, m));
    }
    before + 1
}

// "every local cart in the copy is in the ack list": none of the local carts is in the copy and not in the ack list.
pub fn all_acked(stations: &[u64], m: usize, station: Station) -> bool
    requires { HasStation stations.now station.0 × (m < rooms) }
    ensures { result ≡ disjoint 64 ((stations_in stations.now).local station.0) (minus ((stations_in stations.now).copy m station.0) ((stations_in stations.now).acks m station.0)) }
{
    let copy = stations::copy_of(stations, m, station);
    let acks = stations::acks_of(stations, m, station);
    sets::is_disjoint(
        stations::local_of(stations, station),
        sets::minus(copy, acks),
    )
}
