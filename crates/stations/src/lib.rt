// The stations: everything that a station keeps, and the floor's own mark and counts, in one lent table of words.
#![tactic(auto)]

ghost use Rattle.std.specs.Prelude.{◌≡◌, ℕ, ◌<◌, ◌≤◌, eqb, length, get_or};
ghost use Rattle.protocol.specs.CartSets.{has, set_of};
ghost use Rattle.protocol.specs.Folds.{update2};
ghost use Rattle.protocol.specs.Groups.{group_count};
ghost use Rattle.stations.specs.View.{width, initiators, rooms, HasHead, HasStation, counted_with, entries_in, word_meets, rooms_meeting, naming_in, listing_in, station_word, head, no_groups, head_in, with_group, groups_without, stations_in, no_stations, with_sent, with_expected, with_local, with_copy, with_acks, with_room, with_queue, Leaves};

use ids::{CartNumber, Station};

// A row of the table has this many words. Row 0 is the floor's own, row 1 + t is station t's.
const WIDTH: usize = 116;

// The mark that says started.
pub const STARTED: u64 = 1;

// The floor's own row: the mark, how many stations, how many carts, and the members of each of sixteen groups. The rest is not used.
const MARK: usize = 0;

const STATIONS: usize = 1;

const CARTS: usize = 2;

const GROUP: usize = 3;

// "Sixteen groups", of every caller.
pub const GROUPS: u64 = 16;

// A station's row: how many messages it has sent; what it expects of each of sixteen initiators; its local carts; three words for each of
// thirty-two rooms: the copy, the ack list, the queue's entry; and which rooms' copies and ack lists count, and which rooms' entries, so that a search
// looks at no other.
const SENT: usize = 0;

const EXPECTED: usize = 1;

const LOCAL: usize = 17;

const COPY: usize = 18;

const ACKS: usize = 19;

const QUEUE: usize = 20;

const ROOM: usize = 3;

const COPIES: usize = 114;

const ENTRIES: usize = 115;

// Half of the rooms, and the least number with a bit past these.
const HALF: usize = 16;

const PAST_HALF: u64 = 65536;

// Word k of the station's row.
fn word_of(stations: &[u64], station: Station, k: usize) -> u64
    requires { HasStation stations.now station.0 × (k < width) }
    ensures { result ≡ station_word stations.now station.0 k }
{
    rows::word_at(stations, WIDTH, 1 + station.0 as usize, k)
}

// Another word there; the floor's own row is what it was.
fn put_word(stations: &mut [u64], station: Station, k: usize, word: u64)
    requires { HasStation stations.old station.0 × (k < width) }
    ensures stations_after { station_word stations.new ≡ update2 (station_word stations.old) station.0 k word }
    ensures stations_unchanged { head_in stations.new ≡ head_in stations.old }
    ensures stations_len_unchanged { length stations.new ≡ length stations.old }
{
    rows::put_word(stations, WIDTH, 1 + station.0 as usize, k, word);
}

// "the mark that says started"
pub fn mark_of(stations: &[u64]) -> u64
    requires { HasHead stations.now }
    ensures { result ≡ (head_in stations.now).mark }
{
    rows::word_at(stations, WIDTH, 0, MARK)
}

// Is the floor started?
pub fn is_started(stations: &[u64]) -> bool
    requires { HasHead stations.now }
    ensures { result ≡ eqb (head_in stations.now).mark 1 }
{
    mark_of(stations) == STARTED
}

// How many stations the floor has.
pub fn station_count(stations: &[u64]) -> u64
    requires { HasHead stations.now }
    ensures { result ≡ (head_in stations.now).stations }
{
    rows::word_at(stations, WIDTH, 0, STATIONS)
}

// How many carts the floor has.
pub fn cart_count(stations: &[u64]) -> u64
    requires { HasHead stations.now }
    ensures { result ≡ (head_in stations.now).carts }
{
    rows::word_at(stations, WIDTH, 0, CARTS)
}

// The floor has this mark, and so many stations and carts; its groups stay.
pub fn put_head(stations: &mut [u64], mark: u64, n: u64, k: u64)
    requires { HasHead stations.old }
    ensures stations_after { head_in stations.new ≡ head mark n k (head_in stations.old).groups }
    ensures stations_unchanged { stations_in stations.new ≡ stations_in stations.old }
    ensures stations_len_unchanged { length stations.new ≡ length stations.old }
{
    rows::put_word(stations, WIDTH, 0, MARK, mark);
    rows::put_word(stations, WIDTH, 0, STATIONS, n);
    rows::put_word(stations, WIDTH, 0, CARTS, k);
}

// The members of a group; none, and it is not defined.
pub fn group_of(stations: &[u64], group: u64) -> u64
    requires { HasHead stations.now × (group < group_count) }
    ensures { result ≡ (head_in stations.now).groups group }
{
    rows::word_at(stations, WIDTH, 0, GROUP + group as usize)
}

// A group has other members; what the stations keep stays.
pub fn put_group(stations: &mut [u64], group: u64, set: u64)
    requires { HasHead stations.old × (group < group_count) }
    ensures stations_after { head_in stations.new ≡ with_group (head_in stations.old) group set }
    ensures stations_unchanged { stations_in stations.new ≡ stations_in stations.old }
    ensures stations_len_unchanged { length stations.new ≡ length stations.old }
{
    rows::put_word(stations, WIDTH, 0, GROUP + group as usize, set);
}

// The cart "leaves every group, and a group that this empties is undefined", as one without members is; what the stations keep stays.
pub fn leave_groups(stations: &mut [u64], cart: CartNumber)
    requires { HasHead stations.old × (cart.0 < 64) }
    ensures stations_after { head_in stations.new ≡ groups_without (head_in stations.old) cart.0 }
    ensures stations_unchanged { stations_in stations.new ≡ stations_in stations.old }
    ensures stations_len_unchanged { length stations.new ≡ length stations.old }
{
    for group in 0..GROUPS {
        let members = sets::without_member(group_of(stations, group), cart.0);
        put_group(stations, group, members);
    }
}

// How many messages the station has sent.
pub fn sent_of(stations: &[u64], station: Station) -> u64
    requires { HasStation stations.now station.0 }
    ensures { result ≡ (stations_in stations.now).sent station.0 }
{
    word_of(stations, station, SENT)
}

// The station has sent so many.
pub fn put_sent(stations: &mut [u64], station: Station, sent: u64)
    requires { HasStation stations.old station.0 }
    ensures { Leaves stations.old stations.new (with_sent (stations_in stations.old) station.0 sent) }
{
    put_word(stations, station, SENT, sent);
}

// The number that the station expects of an initiator.
pub fn expected_of(stations: &[u64], station: Station, initiator: Station) -> u64
    requires { HasStation stations.now station.0 × (initiator.0 < initiators) }
    ensures { result ≡ (stations_in stations.now).expected station.0 initiator.0 }
{
    word_of(stations, station, EXPECTED + initiator.0 as usize)
}

// The station expects another number of an initiator.
pub fn put_expected(stations: &mut [u64], station: Station, initiator: Station, expected: u64)
    requires { HasStation stations.old station.0 × (initiator.0 < initiators) }
    ensures { Leaves stations.old stations.new (with_expected (stations_in stations.old) station.0 initiator.0 expected) }
{
    put_word(stations, station, EXPECTED + initiator.0 as usize, expected);
}

// The carts that are local to the station.
pub fn local_of(stations: &[u64], station: Station) -> u64
    requires { HasStation stations.now station.0 }
    ensures { result ≡ (stations_in stations.now).local station.0 }
{
    word_of(stations, station, LOCAL)
}

// Other carts are local to the station.
pub fn put_local(stations: &mut [u64], station: Station, carts: u64)
    requires { HasStation stations.old station.0 }
    ensures { Leaves stations.old stations.new (with_local (stations_in stations.old) station.0 carts) }
{
    put_word(stations, station, LOCAL, carts);
}

// The rooms among those of a word: it may have more than thirty-two bits.
fn rooms_among(word: u64) -> u64
    ensures { result ≡ set_of rooms (has word) }
{
    sets::minus(
        word,
        sets::minus(word, sets::all_below(products::ROOMS as u64)),
    )
}

// The bits that count once the one has that word.
fn counted_with(among: u64, bit: u64, word: u64) -> u64
    requires { bit < 64 }
    ensures { result ≡ counted_with among bit word }
{
    if word == 0 {
        sets::without_member(among, bit)
    } else {
        sets::with_member(among, bit)
    }
}

// The rooms whose entries count in the station's queue: no other room has one there.
pub fn entries_of(stations: &[u64], station: Station) -> u64
    requires { HasStation stations.now station.0 }
    ensures { result ≡ entries_in stations.now station.0 }
{
    rooms_among(word_of(stations, station, ENTRIES))
}

// The station's copy of the set of the message in room m.
pub fn copy_of(stations: &[u64], m: usize, station: Station) -> u64
    requires { HasStation stations.now station.0 × (m < rooms) }
    ensures { result ≡ (stations_in stations.now).copy m station.0 }
{
    if !sets::has(word_of(stations, station, COPIES), m as u64) {
        return 0;
    }
    word_of(stations, station, COPY + ROOM * m)
}

// The first rooms, so many, whose words in that place have one of the carts, whether these count or not: from the last one down, so that no branch asks.
fn words_with(stations: &[u64], station: Station, place: usize, carts: u64, n: usize) -> u64
    requires { HasStation stations.now station.0 × (place < 21) × (n ≤ rooms) }
    ensures { result ≡ set_of n (word_meets stations.now station.0 place carts) }
{
    let mut found: u64 = 0;
    for m in (0..n).rev() {
        let word = word_of(stations, station, place + ROOM * m);
        found = found * 2 + u64::from(!sets::is_disjoint(word, carts));
    }
    found
}

// The rooms whose words in that place count and have one of the carts. Where a copy counts, all are looked at, or the first half where none behind them
// counts, and those that do not count are left out at the end. Messages take the first free room, so mostly the first half is enough.
fn rooms_with(stations: &[u64], station: Station, place: usize, carts: u64) -> u64
    requires { HasStation stations.now station.0 × (place < 21) }
    ensures { result ≡ rooms_meeting stations.now station.0 place carts }
{
    let copies = word_of(stations, station, COPIES);
    if copies == 0 {
        return 0;
    }
    if copies < PAST_HALF {
        return words_with(stations, station, place, carts, HALF) & copies;
    }
    words_with(stations, station, place, carts, products::ROOMS) & copies
}

// The rooms whose copies at the station name the cart.
pub fn rooms_naming(stations: &[u64], station: Station, cart: CartNumber) -> u64
    requires { HasStation stations.now station.0 × (cart.0 < 64) }
    ensures { result ≡ naming_in (stations_in stations.now) station.0 cart.0 }
{
    rooms_with(stations, station, COPY, sets::with_member(0, cart.0))
}

// The rooms with an ack list at the station: one of any carts.
pub fn rooms_listing(stations: &[u64], station: Station) -> u64
    requires { HasStation stations.now station.0 }
    ensures { result ≡ listing_in (stations_in stations.now) station.0 }
{
    rooms_with(stations, station, ACKS, sets::all_below(64))
}

// "the station's ack list for the message" in room m. Whether there is one yet cannot be guessed: its word is read first, and then chosen without a
// branch.
pub fn acks_of(stations: &[u64], m: usize, station: Station) -> u64
    requires { HasStation stations.now station.0 × (m < rooms) }
    ensures { result ≡ (stations_in stations.now).acks m station.0 }
{
    let word = word_of(stations, station, ACKS + ROOM * m);
    if sets::has(word_of(stations, station, COPIES), m as u64) {
        word
    } else {
        0
    }
}

// The station has another copy and another ack list of room m: both count where one of them is not empty.
pub fn put_room(stations: &mut [u64], m: usize, station: Station, copy: u64, acks: u64)
    requires { HasStation stations.old station.0 × (m < rooms) }
    ensures { Leaves stations.old stations.new (with_room (stations_in stations.old) m station.0 copy acks) }
{
    let among = counted_with(word_of(stations, station, COPIES), m as u64, copy | acks);
    put_word(stations, station, COPIES, among);
    put_word(stations, station, COPY + ROOM * m, copy);
    put_word(stations, station, ACKS + ROOM * m, acks);
}

// The station has another copy; its ack list stays.
pub fn put_copy(stations: &mut [u64], m: usize, station: Station, carts: u64)
    requires { HasStation stations.old station.0 × (m < rooms) }
    ensures { Leaves stations.old stations.new (with_copy (stations_in stations.old) m station.0 carts) }
{
    let acks = acks_of(stations, m, station);
    put_room(stations, m, station, carts, acks);
}

// The station has another ack list; its copy stays.
pub fn put_acks(stations: &mut [u64], m: usize, station: Station, carts: u64)
    requires { HasStation stations.old station.0 × (m < rooms) }
    ensures { Leaves stations.old stations.new (with_acks (stations_in stations.old) m station.0 carts) }
{
    let copy = copy_of(stations, m, station);
    put_room(stations, m, station, copy, carts);
}

// The carts queued at the station for the message in room m.
pub fn queue_of(stations: &[u64], m: usize, station: Station) -> u64
    requires { HasStation stations.now station.0 × (m < rooms) }
    ensures { result ≡ (stations_in stations.now).queue m station.0 }
{
    if !sets::has(word_of(stations, station, ENTRIES), m as u64) {
        return 0;
    }
    word_of(stations, station, QUEUE + ROOM * m)
}

// Other carts are queued for it.
pub fn put_queue(stations: &mut [u64], m: usize, station: Station, carts: u64)
    requires { HasStation stations.old station.0 × (m < rooms) }
    ensures { Leaves stations.old stations.new (with_queue (stations_in stations.old) m station.0 carts) }
{
    let among = counted_with(word_of(stations, station, ENTRIES), m as u64, carts);
    put_word(stations, station, ENTRIES, among);
    put_word(stations, station, QUEUE + ROOM * m, carts);
}

// "it writes all the rest afresh": every word is 0, so nothing is at any station, and the floor is not started.
pub fn clear_stations(stations: &mut [u64])
    ensures by_index { (k : ℕ) → get_or stations.new k 0 ≡ 0 }
    ensures stations_after { stations_in stations.new ≡ no_stations }
    ensures stations_after_2 { head_in stations.new ≡ head 0 0 0 no_groups }
    ensures stations_len_unchanged { length stations.new ≡ length stations.old }
{
    rows::clear(stations);
}
