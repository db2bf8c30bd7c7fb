// THE HAND-OFF MODULE over the lent parts: move, deregister, register, enter; a cart's flag; and a cart that goes back to the factory.
#![tactic(auto)]

ghost use Rattle.std.specs.Prelude.{◌≡◌, true, ℕ, ◌+◌, ◌<◌, ◌≤◌, length};
ghost use Rattle.protocol.specs.CartSets.{has, set_of};
ghost use Rattle.protocol.specs.Floor.{at, leaving};
ghost use Rattle.stations.specs.View.{initiators, rooms, HasStation, stations_in, naming_in, Leaves};
ghost use Rattle.carts.specs.View.{carts_in};
ghost use Rattle.carts.specs.Words.{HasRow};
ghost use Rattle.messages.specs.View.{rooms_in};
ghost use Rattle.lines.specs.Form.{form};
ghost use Rattle.lines.specs.Lines.{used};
ghost use Rattle.lines.specs.Words.{capacity};
ghost use Rattle.queue.specs.Rooms.{room_count, HasRooms};
ghost use Rattle.queue.specs.Keys.{KeyedRooms};
ghost use Rattle.reports.specs.Effects.{nothing, putting, queueing};
ghost use Rattle.catchup.specs.Naming.{Covers};
ghost use Rattle.catchup.specs.Arrival.{RoomsBelow, Marks, deepest_to};
ghost use Rattle.handoff.specs.Moved.{Moved};
ghost use Rattle.handoff.specs.Flagged.{Flagged};
ghost use Rattle.handoff.specs.Retired.{Retired};
ghost use Rattle.handoff.specs.Forwarded.{HeldRooms, goes, ordered_rooms, ListsGone};
ghost use Rattle.handoff.specs.Left.{unqueued, left, lists_going, Left};
ghost use Rattle.handoff.specs.Struck.{is_below, struck_in, struck_from};
ghost use Rattle.handoff.specs.Arrived.{settled, joined, Docked, Arrived, Entered};

use ids::{CartNumber, Station};
use reports::Effect;

// A row of next numbers after catch-up, "the numbers passed over in this step", and "the largest place given in that step, 0 if no cart was queued".
#[derive(Clone, Copy)]
struct Caught {
    row: [u64; 16],
    passed: u64,
    place: u64,
}

// "Move (cart, to): a deregister goes from to to the old station; the cart is leaving."
pub fn on_move(
    carts: &mut [u64],
    lines: &mut [u64],
    number: CartNumber,
    old: Station,
    to: Station,
) -> Effect
    requires has_row { HasRow carts.old number.0 × (number.0 < 64) × ((carts_in carts.old).place number.0 ≡ at old.0) }
    requires lines_value { (form lines.old ≡ true) × (used lines.old < capacity lines.old) × (old.0 < 16) × (to.0 < 16) }
    ensures moved { Moved carts.old carts.new lines.old lines.new number.0 old.0 to.0 }
    ensures value { result ≡ putting 1 }
{
    let cart = carts::cart_at(carts, number);
    carts::put_cart(carts, number, cart.greet(to));
    lines::push_back(
        lines,
        to.0 as usize,
        old.0 as usize,
        view::deregister(number),
    );
    reports::putting(1)
}

// "the cart leaves every queue entry here (emptied entries go)". Only rooms that have an entry are looked at.
fn unqueue(stations: &mut [u64], number: CartNumber, station: Station)
    requires { HasStation stations.old station.0 × (number.0 < 64) }
    ensures { Leaves stations.old stations.new (unqueued (stations_in stations.old) station.0 number.0) }
{
    for m in sets::members_of(stations::entries_of(stations, station)) {
        let m = m as usize;
        let carts = sets::without_member(stations::queue_of(stations, m, station), number.0);
        stations::put_queue(stations, m, station, carts);
    }
}

// "the cart leaves every queue entry here (emptied entries go) and the local list"
fn leave(stations: &mut [u64], number: CartNumber, station: Station)
    requires { HasStation stations.old station.0 × (number.0 < 64) }
    ensures { Leaves stations.old stations.new (left (stations_in stations.old) station.0 number.0) }
{
    unqueue(stations, number, station);
    let local = sets::without_member(stations::local_of(stations, station), number.0);
    stations::put_local(stations, station, local);
}

// Does the ack list of the message in room m go: is that buffered at the station, and "its ack list is not empty and holds every local cart in the
// copy"? A room that the messages' table does not have holds none.
fn is_complete(stations: &[u64], messages: &[u64], station: Station, m: usize) -> bool
    requires { HasStation stations.now station.0 × HeldRooms messages.now × (station.0 < 16) × (m < rooms) }
    ensures { result ≡ goes (stations_in stations.now) (rooms_in messages.now) station.0 m }
{
    if messages.len() < m * 7 + 7 {
        return false;
    }
    if !sets::has(messages::waiting_of(messages, m), station.0) {
        return false;
    }
    let initiator = messages::initiator_of(messages, m);
    let number = messages::number_of(messages, m);
    if stations::expected_of(stations, station, initiator) <= number.0 {
        return false;
    }
    if stations::acks_of(stations, m, station) == 0 {
        return false;
    }
    queue::all_acked(stations, m, station)
}

// The rooms whose ack lists go from the station. Only rooms with a list are looked at, and mostly there is none.
fn complete_rooms(stations: &[u64], messages: &[u64], station: Station) -> u64
    requires { HasStation stations.now station.0 × HeldRooms messages.now × (station.0 < 16) }
    ensures { result ≡ set_of 32 (goes (stations_in stations.now) (rooms_in messages.now) station.0) }
{
    let mut complete: u64 = 0;
    for m in sets::members_of(stations::rooms_listing(stations, station)) {
        complete = sets::with_if(
            complete,
            m,
            is_complete(stations, messages, station, m as usize),
        );
    }
    complete
}

// "the list is sent, struck and emptied": those of these rooms, the one that stands first in a queue before the others. Answers how many.
fn send_each(
    stations: &mut [u64],
    messages: &[u64],
    lines: &mut [u64],
    station: Station,
    among: u64,
) -> u64
    requires has_station { HasStation stations.old station.0 × (station.0 < 16) × KeyedRooms messages.now among }
    requires lines_value { (form lines.old ≡ true) × (used lines.old + length (ordered_rooms messages.now (has among)) ≤ capacity lines.old) }
    ensures { ListsGone stations.old stations.new messages.now lines.old lines.new station.0 (has among) result }
{
    let mut sent: u64 = 0;
    let mut left = among;
    while let Some(m) = queue::first_among(messages, left) {
        left = sets::without_member(left, m as u64);
        let initiator = messages::initiator_of(messages, m);
        let number = messages::number_of(messages, m);
        wireless::send_acks(stations, lines, m, initiator, number, station);
        sent += 1;
    }
    sent
}

// "tests every buffered message here in queue order (smallest number, then higher initiator): if its ack list is not empty and holds every local cart
// in the copy, the list is sent, struck and emptied." Sending one makes no other complete, so all are tested first. Answers how many went.
fn forward(stations: &mut [u64], messages: &[u64], lines: &mut [u64], station: Station) -> u64
    requires has_station { HasStation stations.old station.0 × (station.0 < 16) × HeldRooms messages.now }
    requires lines_value { (form lines.old ≡ true) × (used lines.old + length (ordered_rooms messages.now (goes (stations_in stations.old) (rooms_in messages.now) station.0)) ≤ capacity lines.old) }
    ensures { ListsGone stations.old stations.new messages.now lines.old lines.new station.0 (goes (stations_in stations.old) (rooms_in messages.now) station.0) result }
{
    let complete = complete_rooms(stations, messages, station);
    send_each(stations, messages, lines, station, complete)
}

// "Deregister: the cart leaves every queue entry here (emptied entries go) and the local list. A register goes to the new station; the
// register record carries the cart's whole row of next numbers": come from the new station, handled at the old one. After the cart has left, the
// ack lists that are complete go, and "These lists go on the lines before the register, and w counts them".
pub fn on_deregister(
    stations: &mut [u64],
    carts: &mut [u64],
    messages: &[u64],
    lines: &mut [u64],
    number: CartNumber,
    station: Station,
    from: Station,
) -> Effect
    requires has_station { HasStation stations.old station.0 × HasRow carts.old number.0 × (number.0 < 64) × ((carts_in carts.old).place number.0 ≡ leaving station.0 from.0) × HeldRooms messages.now }
    requires lines_value { (form lines.old ≡ true) × (used lines.old + lists_going stations.old messages.now station.0 number.0 < capacity lines.old) × (station.0 < 16) × (from.0 < 16) }
    ensures left { Left stations.old stations.new carts.old carts.new messages.now lines.old lines.new number.0 station.0 from.0 result.records }
    ensures value { result ≡ putting result.records }
{
    leave(stations, number, station);
    let sent = forward(stations, messages, lines, station);
    let cart = carts::cart_at(carts, number);
    let row = cart.next;
    carts::put_cart(carts, number, cart.depart());
    lines::put_register(lines, number.0 as usize, row);
    lines::push_back(
        lines,
        station.0 as usize,
        from.0 as usize,
        view::register(number),
    );
    reports::putting(sent + 1)
}

// Is the message in room m, of that initiator, buffered at the station, "with a number below the cart's next number"?
fn is_passed(
    stations: &[u64],
    messages: &[u64],
    station: Station,
    initiator: Station,
    next: u64,
    m: usize,
) -> bool
    requires has_station { HasStation stations.now station.0 × HasRooms messages.now × (station.0 < 16) × (m < room_count messages.now) × (initiator.0 < initiators) }
    requires initiator_value { initiator.0 ≡ (rooms_in messages.now).initiator m }
    ensures { result ≡ is_below (stations_in stations.now) (rooms_in messages.now) station.0 m next }
{
    if !sets::has(messages::waiting_of(messages, m), station.0) {
        return false;
    }
    let number = messages::number_of(messages, m).0;
    if stations::expected_of(stations, station, initiator) <= number {
        return false;
    }
    number < next
}

// The cart is struck from the station's copy of the set of the message in room m, of that initiator, if it is past that message. Answers the rooms
// that may name it then: a room where it was struck no longer does.
fn strike_from(
    stations: &mut [u64],
    messages: &[u64],
    station: Station,
    cart: CartNumber,
    initiator: Station,
    next: u64,
    m: usize,
    naming: u64,
) -> u64
    requires has_station { HasStation stations.old station.0 × HasRooms messages.now × (station.0 < 16) × (cart.0 < 64) × (m < room_count messages.now) × (initiator.0 < initiators) }
    requires initiator_value { (initiator.0 ≡ (rooms_in messages.now).initiator m) × Covers (room_count messages.now) (stations_in stations.old) station.0 cart.0 naming }
    ensures leaves { Leaves stations.old stations.new (struck_in (stations_in stations.old) (rooms_in messages.now) station.0 cart.0 m next) }
    ensures covers { Covers (room_count messages.now) (stations_in stations.new) station.0 cart.0 result }
{
    if !is_passed(stations, messages, station, initiator, next, m) {
        return naming;
    }
    let copy = sets::without_member(stations::copy_of(stations, m, station), cart.0);
    stations::put_copy(stations, m, station, copy);
    sets::without_member(naming, m as u64)
}

// "from each buffered copy naming the cart with a number below the cart's next number, the cart is struck". Only rooms that may
// name it are looked at, and those that may name it then are answered, so that catch-up looks at no other. The row stays where it is: only the one
// entry that a message asks for is handed on.
fn strike(
    stations: &mut [u64],
    messages: &[u64],
    station: Station,
    cart: CartNumber,
    naming: u64,
    row: [u64; 16],
) -> u64
    requires covers { Covers (room_count messages.now) (stations_in stations.old) station.0 cart.0 naming }
    requires has_station { HasStation stations.old station.0 × HasRooms messages.now × (station.0 < 16) × (cart.0 < 64) }
    ensures leaves { Leaves stations.old stations.new (struck_from (stations_in stations.old) (rooms_in messages.now) station.0 cart.0 row) }
    ensures covers_2 { Covers (room_count messages.now) (stations_in stations.new) station.0 cart.0 result }
{
    let mut ahead = naming;
    for m in sets::members_of(naming) {
        let m = m as usize;
        let Some(initiator) = catchup::initiator_for(stations, messages, station, cart, m) else {
            continue;
        };
        let s = initiator.0 as usize;
        if s < products::INITIATORS {
            ahead = strike_from(
                stations, messages, station, cart, initiator, row[s], m, ahead,
            );
        }
    }
    ahead
}

// The cart is on the station's local list.
fn settle(stations: &mut [u64], station: Station, cart: CartNumber)
    requires { HasStation stations.old station.0 × (cart.0 < 64) }
    ensures { Leaves stations.old stations.new (settled (stations_in stations.old) station.0 cart.0) }
{
    let local = sets::with_member(stations::local_of(stations, station), cart.0);
    stations::put_local(stations, station, local);
}

// The cart is queued for each nearest message, and is on the station's local list. Answers the largest place that it was given.
fn join(
    stations: &mut [u64],
    messages: &[u64],
    station: Station,
    cart: CartNumber,
    nearest: [usize; 16],
    found: u64,
) -> u64
    requires rooms_below { RoomsBelow (room_count messages.now) nearest × Marks nearest found }
    requires has_station { HasStation stations.old station.0 × HasRooms messages.now × (cart.0 < 64) }
    ensures leaves { Leaves stations.old stations.new (joined (stations_in stations.old) station.0 cart.0 nearest) }
    ensures value { result ≡ deepest_to (stations_in stations.old) (rooms_in messages.now) station.0 cart.0 (room_count messages.now) nearest 16 }
{
    let place = catchup::enqueue_all(stations, messages, station, cart, nearest, found);
    settle(stations, station, cart);
    place
}

// A cart that no copy here names is struck from none, no message stops it before the expected numbers, and it is queued for none.
fn dock_unnamed(
    stations: &mut [u64],
    messages: &[u64],
    station: Station,
    cart: CartNumber,
    row: [u64; 16],
) -> Caught
    requires has_station { HasStation stations.old station.0 × HasRooms messages.now × (station.0 < 16) × (cart.0 < 64) }
    requires by_index { (s : ℕ) → s < initiators → (stations_in stations.old).expected station.0 s ≤ 4294967295 }
    requires covers { Covers (room_count messages.now) (stations_in stations.old) station.0 cart.0 0 }
    ensures { Docked stations.old stations.new messages.now station.0 cart.0 row result.row result.passed result.place }
{
    let upto = catchup::levels(stations, station, row);
    settle(stations, station, cart);
    Caught {
        row: upto,
        passed: catchup::passed_over(row, upto),
        place: 0,
    }
}

// "the cart is struck. Then catch-up for every initiator in rising order"
fn dock(
    stations: &mut [u64],
    messages: &[u64],
    station: Station,
    cart: CartNumber,
    row: [u64; 16],
) -> Caught
    requires has_station { HasStation stations.old station.0 × HasRooms messages.now × (station.0 < 16) × (cart.0 < 64) }
    requires by_index { (s : ℕ) → s < initiators → (stations_in stations.old).expected station.0 s ≤ 4294967295 }
    requires by_index_2 { (m : ℕ) → has (naming_in (stations_in stations.old) station.0 cart.0) m ≡ true → m < room_count messages.now }
    ensures { Docked stations.old stations.new messages.now station.0 cart.0 row result.row result.passed result.place }
{
    let naming = stations::rooms_naming(stations, station, cart);
    if naming == 0 {
        return dock_unnamed(stations, messages, station, cart, row);
    }
    let ahead = strike(stations, messages, station, cart, naming, row);
    let stopped = catchup::stops_of(stations, messages, station, cart, ahead, row);
    let nearest = stopped.nearest;
    let upto = stopped.upto;
    let found = stopped.found;
    let place = join(stations, messages, station, cart, nearest, found);
    Caught {
        row: upto,
        passed: catchup::passed_over(row, upto),
        place,
    }
}

// The cart is told steady, or not.
fn tell(carts: &mut [u64], number: CartNumber, steady: bool)
    requires { HasRow carts.old number.0 }
    ensures { Flagged carts.old carts.new number.0 steady }
{
    let cart = carts::cart_at(carts, number);
    carts::put_cart(carts, number, cart.told(steady));
}

// A cart is told steady, or not: "It prints cart and flag with p = 0 and w = 0".
pub fn on_flag(carts: &mut [u64], number: CartNumber, steady: bool) -> Effect
    requires { HasRow carts.old number.0 }
    ensures flagged { Flagged carts.old carts.new number.0 steady }
    ensures value { result ≡ nothing }
{
    tell(carts, number, steady);
    reports::nothing()
}

// A cart, which is at the station, goes back to the factory: "the number becomes outside, leaves every group". It leaves the local list; by 29 it stands in
// no queue entry, and in no copy or ack list of a held message.
pub fn on_retire(
    stations: &mut [u64],
    carts: &mut [u64],
    number: CartNumber,
    station: Station,
) -> Effect
    requires { HasStation stations.old station.0 × HasRow carts.old number.0 × (number.0 < 64) }
    ensures retired { Retired stations.old stations.new carts.old carts.new number.0 station.0 }
    ensures value { result ≡ nothing }
{
    let cart = carts::cart_at(carts, number);
    carts::put_cart(carts, number, cart.retire());
    let local = sets::without_member(stations::local_of(stations, station), number.0);
    stations::put_local(stations, station, local);
    stations::leave_groups(stations, number);
    reports::nothing()
}

// "Register": of a cart, handled at the station that it greeted. "the cart is struck. Then catch-up for every initiator in rising order, and the
// cart is at this station": with the row of next numbers that its register carried.
pub fn on_register(
    stations: &mut [u64],
    carts: &mut [u64],
    messages: &[u64],
    station: Station,
    number: CartNumber,
    row: [u64; 16],
) -> Effect
    requires has_station { HasStation stations.old station.0 × HasRow carts.old number.0 × HasRooms messages.now × (station.0 < 16) × (number.0 < 64) }
    requires by_index { (s : ℕ) → s < initiators → (stations_in stations.old).expected station.0 s ≤ 4294967295 }
    requires by_index_2 { (m : ℕ) → has (naming_in (stations_in stations.old) station.0 number.0) m ≡ true → m < room_count messages.now }
    ensures arrived { Arrived stations.old stations.new carts.old carts.new messages.now station.0 number.0 row result.passed result.place }
    ensures value { result ≡ queueing result.passed result.place }
{
    let caught = dock(stations, messages, station, number, row);
    let upto = caught.row;
    let cart = carts::cart_at(carts, number);
    carts::put_cart(carts, number, cart.arrive(station, upto));
    reports::queueing(caught.passed, caught.place)
}

// "Enter (station, cart): as a register with all next numbers 0, handled at once"; "A cart counts as steady from its entry".
pub fn on_enter(
    stations: &mut [u64],
    carts: &mut [u64],
    messages: &[u64],
    station: Station,
    number: CartNumber,
) -> Effect
    requires has_station { HasStation stations.old station.0 × HasRow carts.old number.0 × HasRooms messages.now × (station.0 < 16) × (number.0 < 64) }
    requires by_index { (s : ℕ) → s < initiators → (stations_in stations.old).expected station.0 s ≤ 4294967295 }
    requires by_index_2 { (m : ℕ) → has (naming_in (stations_in stations.old) station.0 number.0) m ≡ true → m < room_count messages.now }
    ensures entered { Entered stations.old stations.new carts.old carts.new messages.now station.0 number.0 result.passed result.place }
    ensures value { result ≡ queueing result.passed result.place }
{
    let row = [0u64; 16];
    let effect = on_register(stations, carts, messages, station, number, row);
    tell(carts, number, true);
    effect
}
