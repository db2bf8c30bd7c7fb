// THE WIRELESS MODULE over the lent parts: the head message of a station's queue is handed to a cart.
#![tactic(auto)]

ghost use Rattle.std.specs.Prelude.{◌≡◌, true, ℕ, ◌+◌, ◌<◌, ◌≤◌, length};
ghost use Rattle.stations.specs.View.{initiators, rooms, HasStation, stations_in};
ghost use Rattle.carts.specs.View.{carts_in, canonical_in, with_next};
ghost use Rattle.carts.specs.Words.{HasRow};
ghost use Rattle.queue.specs.Rooms.{room_count, HasRooms};
ghost use Rattle.lines.specs.Form.{form};
ghost use Rattle.lines.specs.Lines.{used};
ghost use Rattle.lines.specs.Words.{capacity};
ghost use Rattle.wireless.specs.Handed.{took_from, Received, ListSent, hold_none, AcksSent, CaughtUp, HandedOver};

use ids::{CartNumber, MessageNumber, Station};
use reports::Effect;

// "its next number rises": the cart's record is handed in and handed back. That number alone is new in it, so that alone is stored, and answered.
fn raise_next(carts: &mut [u64], initiator: Station, n: MessageNumber, number: CartNumber) -> u64
    requires { HasRow carts.old number.0 × (initiator.0 < initiators) × (n.0 < 4294967296) }
    ensures value { result ≡ n.0 + 1 }
    ensures carts_after { carts_in carts.new ≡ with_next (carts_in carts.old) number.0 initiator.0 (n.0 + 1) }
    ensures carts_unchanged { canonical_in carts.new ≡ canonical_in carts.old }
    ensures carts_len_unchanged { length carts.new ≡ length carts.old }
{
    let s = initiator.0 as usize;
    // This is never so. With it the compiler sees that the number which is read below is the one that was put, and loads no other of the record.
    if products::INITIATORS <= s {
        return 0;
    }
    let cart = carts::cart_at(carts, number).receive(initiator, n);
    let next = cart.next[s];
    carts::put_next(carts, number, initiator, next);
    next
}

// "The cart leaves the entry (an emptied one goes) and joins the station's ack list for the message; its next number rises": the message in
// room m, with number n. Answers that next number.
fn receive(
    stations: &mut [u64],
    carts: &mut [u64],
    m: usize,
    initiator: Station,
    n: MessageNumber,
    station: Station,
    number: CartNumber,
) -> u64
    requires has_station { HasStation stations.old station.0 × (m < rooms) × (initiator.0 < initiators) × (n.0 < 4294967296) }
    requires has_row { HasRow carts.old number.0 × (number.0 < 64) }
    ensures { Received stations.old stations.new carts.old carts.new m initiator.0 n.0 station.0 number.0 result }
{
    let queue = stations::queue_of(stations, m, station);
    stations::put_queue(stations, m, station, sets::without_member(queue, number.0));
    let acks = stations::acks_of(stations, m, station);
    stations::put_acks(stations, m, station, sets::with_member(acks, number.0));
    raise_next(carts, initiator, n, number)
}

// "the list goes to the initiator, its carts are struck from the copy, and the list is emptied": that of the message in room m, with number n.
pub fn send_acks(
    stations: &mut [u64],
    lines: &mut [u64],
    m: usize,
    initiator: Station,
    n: MessageNumber,
    station: Station,
)
    requires has_station { HasStation stations.old station.0 × (station.0 < 16) × (m < rooms) × (initiator.0 < initiators) × (n.0 < 4294967296) }
    requires lines_value { (form lines.old ≡ true) × (used lines.old < capacity lines.old) }
    ensures { ListSent stations.old stations.new lines.old lines.new m initiator.0 n.0 station.0 }
{
    let acks = stations::acks_of(stations, m, station);
    let copy = stations::copy_of(stations, m, station);
    stations::put_room(stations, m, station, sets::minus(copy, acks), 0);
    lines::push_back(
        lines,
        station.0 as usize,
        initiator.0 as usize,
        view::ack_list(m, n, acks),
    );
}

// "Then, if every local cart in the copy is in the ack list, the list goes". Answers how many records went: 1 or 0.
fn send_acks_if_all(
    stations: &mut [u64],
    lines: &mut [u64],
    m: usize,
    initiator: Station,
    n: MessageNumber,
    station: Station,
) -> u64
    requires has_station { HasStation stations.old station.0 × (station.0 < 16) × (m < rooms) × (initiator.0 < initiators) × (n.0 < 4294967296) }
    requires lines_value { (form lines.old ≡ true) × (hold_none (stations_in stations.old) m station.0 ≡ true → used lines.old < capacity lines.old) }
    ensures { AcksSent stations.old stations.new lines.old lines.new m initiator.0 n.0 station.0 result }
{
    if !queue::all_acked(stations, m, station) {
        return 0;
    }
    send_acks(stations, lines, m, initiator, n, station);
    1
}

// "Then catch-up for that initiator", from the cart's next number on: it counts "the numbers passed over", and the place of the entry that the cart was
// put in, 0 if it was put in none.
fn catch_up(
    stations: &mut [u64],
    carts: &mut [u64],
    messages: &[u64],
    initiator: Station,
    station: Station,
    number: CartNumber,
    next: u64,
) -> Effect
    requires has_station { HasStation stations.old station.0 × HasRooms messages.now × (station.0 < 16) × (initiator.0 < initiators) × (number.0 < 64) × HasRow carts.old number.0 }
    requires by_index { (r : ℕ) → room_count messages.now ≤ r → (stations_in stations.old).copy r station.0 ≡ 0 }
    ensures { CaughtUp stations.old stations.new carts.old carts.new messages.now initiator.0 station.0 number.0 next result.passed result.place }
{
    // "while the cart's next number is below the expected number": it is not, so no message is looked at.
    if stations::expected_of(stations, station, initiator) <= next {
        carts::put_next(carts, number, initiator, next);
        return reports::nothing();
    }
    let nearest = catchup::nearest_of(stations, messages, station, number, initiator, next);
    let upto = catchup::stop_of(stations, messages, station, initiator, next, nearest);
    carts::put_next(carts, number, initiator, upto);
    let place = catchup::enqueue(stations, messages, station, number, nearest);
    reports::queueing(upto - next, place)
}

// "the head message of the queue is handed to the cart, acknowledged in the same step": the message in room m.
pub fn hand_over(
    stations: &mut [u64],
    carts: &mut [u64],
    messages: &[u64],
    lines: &mut [u64],
    m: usize,
    initiator: Station,
    n: MessageNumber,
    station: Station,
    number: CartNumber,
) -> Effect
    requires has_station { HasStation stations.old station.0 × (station.0 < 16) × (m < room_count messages.now) × (initiator.0 < initiators) × (n.0 < 4294967296) × HasRooms messages.now }
    requires has_row { HasRow carts.old number.0 × (number.0 < 64) }
    requires by_index { (r : ℕ) → room_count messages.now ≤ r → (stations_in stations.old).copy r station.0 ≡ 0 }
    requires lines_value { (form lines.old ≡ true) × (hold_none (took_from (stations_in stations.old) m station.0 number.0) m station.0 ≡ true → used lines.old < capacity lines.old) }
    ensures { HandedOver stations.old stations.new carts.old carts.new messages.now lines.old lines.new m initiator.0 n.0 station.0 number.0 result.passed result.records result.place }
{
    let next = receive(stations, carts, m, initiator, n, station, number);
    let records = send_acks_if_all(stations, lines, m, initiator, n, station);
    let caught = catch_up(stations, carts, messages, initiator, station, number, next);
    Effect {
        passed: caught.passed,
        records,
        place: caught.place,
    }
}
