// Catch-up: "while the cart's next number is below the expected number: if that message is buffered here and its copy names the cart,
// queue the cart for it and stop; else raise the next number". No number is looked at by itself: where this stops is the nearest of
// the held messages that would stop the cart, or the expected number where none would.
#![tactic(auto)]

ghost use Rattle.std.specs.Prelude.{◌≡◌, Some, true, ℕ, ◌+◌, ◌-◌, ◌<◌, ◌≤◌};
ghost use Rattle.std.proofs.Math.Option.{some};
ghost use Rattle.protocol.specs.CartSets.{has};
ghost use Rattle.protocol.specs.Folds.{list_of};
ghost use Rattle.stations.specs.View.{initiators, rooms, HasStation, stations_in, naming_in, Leaves};
ghost use Rattle.messages.specs.View.{HasRoom, rooms_in};
ghost use Rattle.queue.specs.Rooms.{tables_floor, room_count, HasRooms, room_code, room_in};
ghost use Rattle.queue.specs.Places.{place_among};
ghost use Rattle.catchup.specs.Naming.{Covers, named_by};
ghost use Rattle.catchup.specs.Nearest.{would_stop, nearer_with, nearest_among, stop_by};
ghost use Rattle.catchup.specs.Arrival.{stops_before, level_in, nearest_row, stop_in, Rises, rise, is_found, occurs, RoomsBelow, Marks, queued_for, place_found, deepest_to};

use ids::{CartNumber, Station};

// The word for no room in a row of nearest messages: sixteen bare words are handed on by value at every arrival, where sixteen options would be twice as many.
const NONE: usize = 32;

// Would the message in room m stop the cart at the station, on its way up from the next number among those of the initiator?
fn would_stop(
    stations: &[u64],
    messages: &[u64],
    station: Station,
    cart: CartNumber,
    initiator: Station,
    next: u64,
    m: usize,
) -> bool
    requires { HasStation stations.now station.0 × HasRooms messages.now × (station.0 < 16) × (cart.0 < 64) × (initiator.0 < initiators) × (m < room_count messages.now) }
    ensures { result ≡ would_stop (tables_floor stations.now messages.now) station.0 cart.0 initiator.0 next m }
{
    let waiting = messages::waiting_of(messages, m);
    if waiting == 0 {
        return false;
    }
    if messages::initiator_of(messages, m) != initiator {
        return false;
    }
    // It is buffered here while its number is below the expected one and its delete is not handled.
    if !sets::has(waiting, station.0) {
        return false;
    }
    let number = messages::number_of(messages, m).0;
    if stations::expected_of(stations, station, initiator) <= number {
        return false;
    }
    if !sets::has(stations::copy_of(stations, m, station), cart.0) {
        return false;
    }
    next <= number
}

// The nearest once room m is looked at too. Of two with the same number the one in the earlier room stays, as the protocol's loop finds it.
fn nearer(
    stations: &[u64],
    messages: &[u64],
    station: Station,
    cart: CartNumber,
    initiator: Station,
    next: u64,
    m: usize,
    nearest: Option<usize>,
) -> Option<usize>
    requires { HasStation stations.now station.0 × HasRooms messages.now × (station.0 < 16) × (cart.0 < 64) × (initiator.0 < initiators) × (m < room_count messages.now) × ((k : ℕ) → nearest ≡ Some k → k < room_count messages.now) }
    ensures { result ≡ room_code (nearer_with (tables_floor stations.now messages.now) station.0 cart.0 initiator.0 next m (room_in nearest)) }
{
    if !would_stop(stations, messages, station, cart, initiator, next, m) {
        return nearest;
    }
    let Some(k) = nearest else {
        return Some(m);
    };
    if messages::number_of(messages, m) < messages::number_of(messages, k) {
        Some(m)
    } else {
        nearest
    }
}

// The nearest message of the initiator that would stop the cart: its room, or none.
pub fn nearest_of(
    stations: &[u64],
    messages: &[u64],
    station: Station,
    cart: CartNumber,
    initiator: Station,
    next: u64,
) -> Option<usize>
    requires has_station { HasStation stations.now station.0 × HasRooms messages.now × (station.0 < 16) × (cart.0 < 64) × (initiator.0 < initiators) }
    requires by_index { (m : ℕ) → has (naming_in (stations_in stations.now) station.0 cart.0) m ≡ true → m < room_count messages.now }
    ensures { result ≡ room_code (nearest_among (tables_floor stations.now messages.now) station.0 cart.0 initiator.0 next 32) }
{
    let mut nearest = None;
    for m in sets::members_of(stations::rooms_naming(stations, station, cart)) {
        nearest = nearer(
            stations, messages, station, cart, initiator, next, m as usize, nearest,
        );
    }
    nearest
}

// Whose next number the message in room m is about: its initiator's where its copy names the cart, and else nobody's.
pub fn initiator_for(
    stations: &[u64],
    messages: &[u64],
    station: Station,
    cart: CartNumber,
    m: usize,
) -> Option<Station>
    requires { HasStation stations.now station.0 × HasRooms messages.now × (cart.0 < 64) × (m < room_count messages.now) }
    ensures { result ≡ named_by (stations_in stations.now) (rooms_in messages.now) station.0 cart.0 m }
{
    if sets::has(stations::copy_of(stations, m, station), cart.0) {
        return Some(messages::initiator_of(messages, m));
    }
    None
}

// Where each next number stops if no message stops the cart: at the expected number, or where it is if it is past that already.
pub fn levels(stations: &[u64], station: Station, row: [u64; 16]) -> [u64; 16]
    requires { HasStation stations.now station.0 }
    ensures { result ≡ list_of 16 (level_in (stations_in stations.now) station.0 row) }
{
    let mut upto = row;
    for s in 0..products::INITIATORS {
        upto[s] = row[s].max(stations::expected_of(stations, station, Station(s as u64)));
    }
    upto
}

// Does the message in room m, which names the cart, stop it from the next number on and before upto?
fn stops_before(messages: &[u64], station: Station, m: usize, next: u64, upto: u64) -> bool
    requires { HasRooms messages.now × (station.0 < 16) × (m < room_count messages.now) }
    ensures { result ≡ stops_before (rooms_in messages.now) station.0 m next upto }
{
    let number = messages::number_of(messages, m).0;
    if upto <= number {
        return false;
    }
    if number < next {
        return false;
    }
    sets::has(messages::waiting_of(messages, m), station.0)
}

// Where each next number stops, the nearest message of each initiator, and which initiators have one.
#[derive(Clone, Copy)]
pub struct Stopped {
    pub upto: [u64; 16],
    pub nearest: [usize; 16],
    pub found: u64,
}

// All are found in one pass over the rooms that may name the cart, for a cart with that row of next numbers. A message has one initiator, so only
// its entries can change, and they are not touched unless it stops the cart sooner. Of two with the same number the one in the earlier room
// stays, as the protocol's loop finds it.
pub fn stops_of(
    stations: &[u64],
    messages: &[u64],
    station: Station,
    cart: CartNumber,
    naming: u64,
    row: [u64; 16],
) -> Stopped
    requires covers { Covers (room_count messages.now) (stations_in stations.now) station.0 cart.0 naming }
    requires has_station { HasStation stations.now station.0 × HasRooms messages.now × (station.0 < 16) × (cart.0 < 64) }
    ensures nearest_value { result.nearest ≡ nearest_row (tables_floor stations.now messages.now) station.0 cart.0 row 32 }
    ensures upto_value { result.upto ≡ list_of 16 (stop_in (tables_floor stations.now messages.now) station.0 row result.nearest) }
    ensures marks { Marks result.nearest result.found }
{
    let mut upto = levels(stations, station, row);
    let mut nearest = [NONE; 16];
    let mut found: u64 = 0;
    for m in sets::members_of(naming) {
        let m = m as usize;
        let Some(initiator) = initiator_for(stations, messages, station, cart, m) else {
            continue;
        };
        let s = initiator.0 as usize;
        if s < products::INITIATORS {
            if stops_before(messages, station, m, row[s], upto[s]) {
                upto[s] = messages::number_of(messages, m).0;
                nearest[s] = m;
                found = sets::with_member(found, initiator.0);
            }
        }
    }
    Stopped {
        upto,
        nearest,
        found,
    }
}

// "the numbers passed over in this step": how far a row of next numbers rises.
pub fn passed_over(row: [u64; 16], upto: [u64; 16]) -> u64
    requires { Rises row upto }
    ensures { result ≡ rise row upto 16 }
{
    let mut passed: u64 = 0;
    for s in 0..products::INITIATORS {
        passed += upto[s] - row[s];
    }
    passed
}

// Where the next number stops: at the nearest message, or else at the expected number, if it is not past that already.
pub fn stop_of(
    stations: &[u64],
    messages: &[u64],
    station: Station,
    initiator: Station,
    next: u64,
    nearest: Option<usize>,
) -> u64
    requires { HasStation stations.now station.0 × HasRooms messages.now × (initiator.0 < initiators) × ((m : ℕ) → nearest ≡ Some m → m < room_count messages.now) }
    ensures { result ≡ (stop_by (tables_floor stations.now messages.now) station.0 initiator.0 next (room_in nearest)).upto }
{
    match nearest {
        Some(m) => messages::number_of(messages, m).0,
        None => next.max(stations::expected_of(stations, station, initiator)),
    }
}

// The cart is queued for the message in room m. "Putting a cart in a queue entry now also answers the entry's place, .. as it stands right after the
// putting".
fn enqueue_for(
    stations: &mut [u64],
    messages: &[u64],
    station: Station,
    cart: CartNumber,
    m: usize,
) -> u64
    requires { HasStation stations.old station.0 × HasRooms messages.now × (cart.0 < 64) × HasRoom messages.now m }
    ensures leaves { Leaves stations.old stations.new (queued_for (stations_in stations.old) station.0 cart.0 (is_found (some m))) }
    ensures value { result ≡ place_among (stations_in stations.new) (rooms_in messages.now) station.0 m (room_count messages.now) }
{
    let carts = sets::with_member(stations::queue_of(stations, m, station), cart.0);
    stations::put_queue(stations, m, station, carts);
    queue::place_of(stations, messages, station, m)
}

// "queue the cart for it": for the nearest message, if there is one. Answers the entry's place, or 0.
pub fn enqueue(
    stations: &mut [u64],
    messages: &[u64],
    station: Station,
    cart: CartNumber,
    nearest: Option<usize>,
) -> u64
    requires { HasStation stations.old station.0 × HasRooms messages.now × (cart.0 < 64) × ((m : ℕ) → nearest ≡ Some m → m < room_count messages.now) }
    ensures leaves { Leaves stations.old stations.new (queued_for (stations_in stations.old) station.0 cart.0 (is_found (room_in nearest))) }
    ensures value { result ≡ place_found (stations_in stations.new) (rooms_in messages.now) station.0 (room_count messages.now) (room_in nearest) }
{
    match nearest {
        Some(m) => enqueue_for(stations, messages, station, cart, m),
        None => 0,
    }
}

// The cart is queued for each nearest message, the initiators in rising order; only those that have one are looked at. Answers "the largest place given
// in that step": a later entry may come to stand before an earlier one, so the order shows.
pub fn enqueue_all(
    stations: &mut [u64],
    messages: &[u64],
    station: Station,
    cart: CartNumber,
    nearest: [usize; 16],
    found: u64,
) -> u64
    requires rooms_below { RoomsBelow (room_count messages.now) nearest × Marks nearest found }
    requires has_station { HasStation stations.old station.0 × HasRooms messages.now × (cart.0 < 64) }
    ensures leaves { Leaves stations.old stations.new (queued_for (stations_in stations.old) station.0 cart.0 (occurs nearest 16)) }
    ensures value { result ≡ deepest_to (stations_in stations.old) (rooms_in messages.now) station.0 cart.0 (room_count messages.now) nearest 16 }
{
    let mut deepest: u64 = 0;
    for s in sets::members_of(found) {
        let place = enqueue_for(stations, messages, station, cart, nearest[s as usize]);
        deepest = deepest.max(place);
    }
    deepest
}
