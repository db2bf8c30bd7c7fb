// THE WIRED MODULE over the lent parts: the records of a message, handled at a station once they are off their line.
#![tactic(auto)]

ghost use Rattle.std.specs.Prelude.{◌≡◌, true, cond, not, List, ℕ, ◌+◌, ◌<◌, ◌≤◌, eqb};
ghost use Rattle.protocol.specs.CartSets.{has, union, minus};
ghost use Rattle.protocol.specs.Floor.{Product, limits_of};
ghost use Rattle.protocol.specs.Form.{passes_form};
ghost use Rattle.protocol.specs.Wired.{local_row};
ghost use Rattle.stations.specs.View.{initiators, rooms, HasStation, head_in, stations_in};
ghost use Rattle.carts.specs.Words.{HasRow};
ghost use Rattle.carts.specs.View.{carts_in};
ghost use Rattle.messages.specs.View.{HasRoom, rooms_in};
ghost use Rattle.queue.specs.Rooms.{room_count, HasRooms};
ghost use Rattle.queue.specs.Places.{place_among};
ghost use Rattle.sets.specs.Masks.{size};
ghost use Rattle.reports.specs.Effects.{nothing, putting, queueing};
ghost use Rattle.lines.specs.Form.{form};
ghost use Rattle.lines.specs.Lines.{used};
ghost use Rattle.lines.specs.Words.{capacity};
ghost use Rattle.view.specs.Records.{index_of, number_of};
ghost use Rattle.view.specs.View.{lent, floor_in};
ghost use Rattle.wired_records.specs.Handled.{due_among, past_among, Raised, Stored, Buffered, Deleted, Acknowledged};

use ids::{CartNumber, MessageNumber, Station};
use lines::Record;
use reports::Effect;

// The local carts as a message comes: those whose next number is its number, those whose next number is greater, and how many numbers rise.
#[derive(Clone, Copy)]
struct Sorted {
    due: u64,
    past: u64,
    passed: u64,
}

// "equal and not named, its next number rises": by one, or by none.
fn rise_of(named: bool) -> u64
    ensures { result ≡ cond (not named) 1 0 }
{
    u64::from(!named)
}

// "For each local cart: next number equal ..; greater ..". Nearly all are equal, so that is asked first, and the others are gathered; whether a cart
// that is due is named cannot be guessed, so its number is put back risen or not, without a branch.
fn sort_local(carts: &mut [u64], local: u64, named: u64, initiator: Station, number: u64) -> Sorted
    requires { ((c : ℕ) → has local c ≡ true → HasRow carts.old c) × (initiator.0 < initiators) × (number < 4294967296) }
    ensures due_value { result.due ≡ due_among (carts_in carts.old) local initiator.0 number }
    ensures past_value { result.past ≡ past_among (carts_in carts.old) local initiator.0 number }
    ensures raised { Raised carts.old carts.new (minus result.due named) initiator.0 (number + 1) }
    ensures passed_value { result.passed ≡ size 64 (minus result.due named) }
{
    let mut others: u64 = 0;
    let mut past: u64 = 0;
    let mut passed: u64 = 0;
    for cart in sets::members_of(local) {
        let next = carts::next_of(carts, CartNumber(cart), initiator);
        if next == number {
            let rises = rise_of(sets::has(named, cart));
            carts::put_next(carts, CartNumber(cart), initiator, next + rises);
            passed += rises;
        } else {
            others = sets::with_member(others, cart);
            past = sets::with_if(past, cart, number < next);
        }
    }
    Sorted {
        due: sets::minus(local, others),
        past,
        passed,
    }
}

// The copy and the queue's entry of the message in room m; "the expected number rises by one".
fn store(stations: &mut [u64], m: usize, initiator: Station, to: Station, copy: u64, queue: u64)
    requires { HasStation stations.old to.0 × (m < rooms) × (initiator.0 < initiators) × ((stations_in stations.old).expected to.0 initiator.0 < 4294967296) }
    ensures { Stored stations.old stations.new m initiator.0 to.0 copy queue }
{
    let expected = stations::expected_of(stations, to, initiator);
    stations::put_copy(stations, m, to, copy);
    stations::put_queue(stations, m, to, queue);
    stations::put_expected(stations, to, initiator, expected + 1);
}

// "Putting a cart in a queue entry now also answers the entry's place, 1 for the head, as it stands right after the putting": of the entry for the
// message in room m, once the carts `queued` are in it. "0 if no cart was queued": nothing is looked at then.
fn place_of_new(stations: &[u64], messages: &[u64], m: usize, to: Station, queued: u64) -> u64
    requires { HasStation stations.now to.0 × HasRooms messages.now × HasRoom messages.now m }
    ensures { result ≡ cond (eqb queued 0) 0 (place_among (stations_in stations.now) (rooms_in messages.now) to.0 m (room_count messages.now)) }
{
    if queued == 0 {
        return 0;
    }
    queue::place_of(stations, messages, to, m)
}

// "a multicast step shall find out once for each cart whether it is local": the answers are the bits of one word, so one look finds out for each of
// the sixty-four. On a floor that passes they are "yes exactly for the local carts".
fn local_row(stations: &[u64], to: Station) -> u64
    requires { HasStation stations.now to.0 }
    ensures value { result ≡ (stations_in stations.now).local to.0 }
    ensures value_2 { (P : Product) (C M W T O : List ℕ) → passes_form (limits_of P) (floor_in (lent P stations.now C M W T O)) ≡ true → to.0 < (head_in stations.now).stations → result ≡ local_row (floor_in (lent P stations.now C M W T O)) to.0 }
{
    stations::local_of(stations, to)
}

// "Multicast: the message is buffered with its own copy of the set. For each local cart: next number equal and cart named, it is queued for that
// message; equal and not named, its next number rises; greater and named, it is struck from the copy." The numbers that rise are passed over. Who is
// local is "from that row alone", whatever the row says: a cart that is elsewhere has the next numbers of its record. Putting the carts in the queue
// "now also answers the entry's place, 1 for the head, as it stands right after the putting", 0 "if no cart was queued".
fn multicast_by_row(
    stations: &mut [u64],
    carts: &mut [u64],
    messages: &[u64],
    said: Record,
    initiator: Station,
    to: Station,
    local: u64,
) -> Effect
    requires has_station { HasStation stations.old to.0 × (initiator.0 < initiators) × ((stations_in stations.old).expected to.0 initiator.0 < 4294967296) }
    requires by_index { ((c : ℕ) → has local c ≡ true → HasRow carts.old c) × HasRoom messages.now (index_of said.0) × (index_of said.0 < rooms) × (number_of said.0 < 4294967296) × HasRooms messages.now }
    ensures buffered { Buffered stations.old stations.new carts.old carts.new messages.now local (index_of said.0) (number_of said.0) initiator.0 to.0 result.passed result.place }
    ensures value { result ≡ queueing result.passed result.place }
{
    let m = view::index_of(said) as usize;
    let number = view::number_of(said);
    let named = messages::named_of(messages, m);
    let sorted = sort_local(carts, local, named, initiator, number);
    let over = sets::minus(sorted.due, named);
    let queued = sets::minus(sorted.due, over);
    store(
        stations,
        m,
        initiator,
        to,
        sets::minus(named, sorted.past),
        queued,
    );
    let place = place_of_new(stations, messages, m, to, queued);
    reports::queueing(sorted.passed, place)
}

// "Multicast": the row is made first, and the step changes none of its answers. It answers "the entry's place, 1 for the head, as it stands right after
// the putting", 0 "if no cart was queued".
pub fn on_multicast(
    stations: &mut [u64],
    carts: &mut [u64],
    messages: &[u64],
    said: Record,
    initiator: Station,
    to: Station,
) -> Effect
    requires has_station { HasStation stations.old to.0 × (initiator.0 < initiators) × ((stations_in stations.old).expected to.0 initiator.0 < 4294967296) }
    requires by_index { ((c : ℕ) → has ((stations_in stations.old).local to.0) c ≡ true → HasRow carts.old c) × HasRoom messages.now (index_of said.0) × (index_of said.0 < rooms) × (number_of said.0 < 4294967296) × HasRooms messages.now }
    ensures buffered { Buffered stations.old stations.new carts.old carts.new messages.now ((stations_in stations.old).local to.0) (index_of said.0) (number_of said.0) initiator.0 to.0 result.passed result.place }
    ensures value { result ≡ queueing result.passed result.place }
    ensures stations_unchanged { (stations_in stations.new).local ≡ (stations_in stations.old).local }
{
    let local = local_row(stations, to);
    multicast_by_row(stations, carts, messages, said, initiator, to, local)
}

// "Delete: the message leaves this station's buffer."
pub fn on_delete(messages: &mut [u64], said: Record, to: Station) -> Effect
    requires { HasRoom messages.old (index_of said.0) × (to.0 < 16) }
    ensures deleted { Deleted messages.old messages.new (index_of said.0) to.0 }
    ensures value { result ≡ nothing }
{
    let m = view::index_of(said) as usize;
    let waiting = messages::waiting_of(messages, m);
    messages::put_waiting(messages, m, sets::without_member(waiting, to.0));
    reports::nothing()
}

// "Ack list: the initiator adds its carts. When they make up the whole set, a delete goes to every station": to the first n.
pub fn on_ack_list(
    messages: &mut [u64],
    lines: &mut [u64],
    said: Record,
    initiator: Station,
    n: u64,
) -> Effect
    requires has_room { HasRoom messages.old (index_of said.0) × (index_of said.0 < rooms) × (number_of said.0 < 4294967296) }
    requires initiator_lt_initiators { (initiator.0 < initiators) × (n ≤ 16) × (form lines.old ≡ true) }
    requires n_bound { union ((rooms_in messages.old).acked (index_of said.0)) said.1 ≡ (rooms_in messages.old).named (index_of said.0) → used lines.old + n ≤ capacity lines.old }
    ensures acknowledged { Acknowledged messages.old messages.new lines.old lines.new (index_of said.0) (number_of said.0) said.1 initiator.0 n result.records }
    ensures value { result ≡ putting result.records }
{
    let m = view::index_of(said) as usize;
    let known = sets::union(messages::acked_of(messages, m), said.1);
    let named = messages::named_of(messages, m);
    messages::put_acked(messages, m, known);
    if known != named {
        return reports::nothing();
    }
    let number = MessageNumber(view::number_of(said));
    wired_lines::push_to_every(lines, initiator, n, view::delete(m, number));
    reports::putting(n)
}
