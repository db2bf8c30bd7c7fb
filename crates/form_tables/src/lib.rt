// The form test of the three tables: the clauses of the form rule that look at no record on a line. "a written yes-or-no test of the floor
// alone": each function answers the test of its clause, and ends at the first failure.
#![tactic(auto)]

ghost use Rattle.std.specs.Prelude.{◌≡◌, true, not, [], ℕ, ◌+◌, ◌*◌, ◌<◌, ◌≤◌, length, get_or};
ghost use Rattle.protocol.specs.Floor.{whole_floor, Limits, Floor, limits, local_to, entered, is_message};
ghost use Rattle.protocol.specs.CartSets.{has, set_of};
ghost use Rattle.protocol.specs.Claims.{test, all, is, both, when, lt, le, eq};
ghost use Rattle.protocol.specs.Form.{station_rule, place_inside, cart_rule, entry_rule};
ghost use Rattle.products.specs.Numbers.{Fits};
ghost use Rattle.stations.specs.View.{rooms, HasHead, HasStation, head_in, stations_in};
ghost use Rattle.carts.specs.Words.{HasRow};
ghost use Rattle.carts.specs.Records.{seen};
ghost use Rattle.carts.specs.View.{carts_in, canonical_in};
ghost use Rattle.messages.specs.View.{HasRoom};
ghost use Rattle.view.specs.View.{lent, local_right};
ghost use Rattle.form_tables.specs.Tables.{tables, Sized, OnTables, counts_rule, room_sets, held_names, copy_named, copies_rule, rooms_end, tables_rule};
ghost use Rattle.form_tables.specs.Parts.{Home, most_of, held_before, Entries, missing_at, Few};

use carts::Place;
use ids::{CartNumber, MessageNumber, Station};
use products::Bounds;

// At least one, and no more than there are rows for.
fn is_few(count: u64, rows: u64) -> bool
    ensures { result ≡ test (both (lt 0 count) (le count rows)) }
{
    0 < count && count <= rows
}

// "An unstarted floor fails it"; it has no more stations and carts than there are rows for.
fn counts_ok(stations: &[u64], bounds: Bounds) -> bool
    requires { HasHead stations.now }
    ensures { result ≡ test (counts_rule bounds.stations bounds.carts (tables stations.now [] [])) }
{
    if stations::mark_of(stations) != stations::STARTED {
        return false;
    }
    is_few(stations::station_count(stations), bounds.stations)
        && is_few(stations::cart_count(stations), bounds.carts)
}

// "the caller's last number": no station has sent more, and one beyond the floor has sent nothing.
fn station_ok(stations: &[u64], s: Station, last: u32) -> bool
    requires { HasHead stations.now × HasStation stations.now s.0 × (last ≤ 4294967294) }
    ensures { (M : Limits) → M.last ≡ last → result ≡ test (station_rule M (tables stations.now [] []) s.0) }
{
    let sent = stations::sent_of(stations, s);
    sent <= u64::from(last) + 1 && (sent == 0 || s.0 < stations::station_count(stations))
}

// The same of each of the n that there are rows for.
fn stations_ok(stations: &[u64], n: u64, last: u32) -> bool
    requires { (length stations.now ≡ 116 + n * 116) × (n ≤ 16) × (last ≤ 4294967294) }
    ensures { (M : Limits) → M.last ≡ last → result ≡ test (all n (station_rule M (tables stations.now [] []))) }
{
    for s in 0..n {
        if !station_ok(stations, Station(s), last) {
            return false;
        }
    }
    true
}

// "A cart is outside, at a station, leaving .. or travelling": the place of each cart stands in the words that it is written in.
fn places_ok(carts: &[u64], k: u64) -> bool
    requires { (length carts.now ≡ k * 19) × (k ≤ 64) }
    ensures { result ≡ test (all k (λ c. is (canonical_in carts.now c))) }
{
    for number in 0..k {
        if !carts::is_canonical(carts, CartNumber(number)) {
            return false;
        }
    }
    true
}

// "It is local to a station when at it or leaving it": the station that the cart is local to, if there is one.
fn home_of(carts: &[u64], number: CartNumber) -> Option<Station>
    requires { HasRow carts.now number.0 }
    ensures { Home ((carts_in carts.now).place number.0) result }
{
    match carts::place_of(carts, number) {
        Place::At(s) | Place::Leaving(s, _) => Some(s),
        Place::Outside | Place::Travelling(_, _) => None,
    }
}

// The local carts of each station, by one pass over the carts.
fn locals_of(carts: &[u64], k: u64) -> [u64; 16]
    requires { (length carts.now ≡ k * 19) × (k ≤ 64) }
    ensures { (t : ℕ) → t < 16 → get_or result t 0 ≡ set_of 64 (λ c. local_to ((carts_in carts.now).place c) t) }
{
    let mut locals = [0u64; 16];
    for number in 0..k {
        if let Some(home) = home_of(carts, CartNumber(number)) {
            let s = home.0 as usize;
            if s < 16 {
                locals[s] = sets::with_member(locals[s], number);
            }
        }
    }
    locals
}

// The masks of local carts are right.
fn locals_ok(stations: &[u64], carts: &[u64], n: usize, k: u64) -> bool
    requires { (length stations.now ≡ 116 + n * 116) × (n ≤ 16) × (length carts.now ≡ k * 19) × (k ≤ 64) }
    ensures { result ≡ test (all n (λ t. is (local_right (lent whole_floor stations.now carts.now [] [] [] []) t))) }
{
    let locals = locals_of(carts, k);
    for t in 0..n {
        if stations::local_of(stations, Station(t as u64)) != locals[t] {
            return false;
        }
    }
    true
}

// Both stations are among the first n.
fn are_below(s: u64, t: u64, n: u64) -> bool
    ensures { result ≡ test (both (lt s n) (lt t n)) }
{
    s < n && t < n
}

// "a place at, or between, stations of the floor", which are n.
fn place_ok(place: Place, n: u64) -> bool
    ensures { (F : Floor) → F.stations ≡ n → result ≡ test (place_inside limits F (seen place)) }
{
    match place {
        Place::Outside => true,
        Place::At(s) => s.0 < n,
        Place::Leaving(s, t) => are_below(s.0, t.0, n),
        Place::Travelling(s, t) => are_below(s.0, t.0, n),
    }
}

// The cart has entered: it is at a station, leaving or travelling.
pub fn has_entered(place: Place) -> bool
    ensures { result ≡ entered (seen place) }
{
    !matches!(place, Place::Outside)
}

// Of the initiators from n on, which have no row, the cart's next numbers are 0.
fn row_ends(carts: &[u64], number: CartNumber, n: u64) -> bool
    requires { HasRow carts.now number.0 × (n ≤ 16) }
    ensures { result ≡ test (all 16 (λ s. when (le n s) (eq ((carts_in carts.now).next number.0 s) 0))) }
{
    for s in n..16 {
        if 0 < carts::next_of(carts, number, Station(s)) {
            return false;
        }
    }
    true
}

// No next number of the cart is above what was sent, by the n stations that there are rows for.
fn row_sent(stations: &[u64], carts: &[u64], number: CartNumber, n: u64) -> bool
    requires { (length stations.now ≡ 116 + n * 116) × (n ≤ 16) × HasRow carts.now number.0 }
    ensures { result ≡ test (all 16 (λ s. le ((carts_in carts.now).next number.0 s) ((stations_in stations.now).sent s))) }
{
    for s in 0..n {
        if stations::sent_of(stations, Station(s)) < carts::next_of(carts, number, Station(s)) {
            return false;
        }
    }
    row_ends(carts, number, n)
}

// "its place is on the floor; if it has entered, so is the cart, and if not its next numbers are 0; no next number is above what was sent",
// which is so of a row of zeros.
fn cart_ok(stations: &[u64], carts: &[u64], number: CartNumber, n: u64) -> bool
    requires { (length stations.now ≡ 116 + n * 116) × (n ≤ 16) × HasRow carts.now number.0 }
    ensures { result ≡ test (cart_rule limits (tables stations.now carts.now []) number.0) }
{
    let place = carts::place_of(carts, number);
    if !has_entered(place) {
        return row_ends(carts, number, 0);
    }
    if stations::cart_count(stations) <= number.0 {
        return false;
    }
    if !place_ok(place, stations::station_count(stations)) {
        return false;
    }
    row_sent(stations, carts, number, n)
}

// The same of each of the k that there are rows for.
fn carts_ok(stations: &[u64], carts: &[u64], n: u64, k: u64) -> bool
    requires { (length stations.now ≡ 116 + n * 116) × (n ≤ 16) × (length carts.now ≡ k * 19) × (k ≤ 64) }
    ensures { result ≡ test (all k (cart_rule limits (tables stations.now carts.now []))) }
{
    for number in 0..k {
        if !cart_ok(stations, carts, CartNumber(number), n) {
            return false;
        }
    }
    true
}

// The greatest set of the first n: every digit of the word, where n is more than it has.
fn most_of(n: u64) -> u64
    ensures { result ≡ most_of n }
{
    sets::all_below(n.min(64))
}

// "its sets are of the floor": those of the message in room m.
fn room_ok(stations: &[u64], messages: &[u64], m: usize) -> bool
    requires { HasHead stations.now × HasRoom messages.now m }
    ensures { result ≡ test (room_sets (tables stations.now [] messages.now) m) }
{
    let most = most_of(stations::cart_count(stations));
    let greater = messages::named_of(messages, m).max(messages::acked_of(messages, m));
    greater <= most
        && messages::waiting_of(messages, m) <= most_of(stations::station_count(stations))
}

// The same of each of the rooms.
fn rooms_ok(stations: &[u64], messages: &[u64], held: usize) -> bool
    requires { HasHead stations.now × (length messages.now ≡ held * 7) × (held ≤ 32) }
    ensures { result ≡ test (all held (room_sets (tables stations.now [] messages.now))) }
{
    for m in 0..held {
        if !room_ok(stations, messages, m) {
            return false;
        }
    }
    true
}

// How many messages station s has sent: none, where there is no row for it.
pub fn sent_by(stations: &[u64], rows: u64, s: u64) -> u64
    requires { length stations.now ≡ 116 + rows * 116 }
    ensures { result ≡ (stations_in stations.now).sent s }
{
    if s < rows {
        stations::sent_of(stations, Station(s))
    } else {
        0
    }
}

// The number that station t expects of initiator s: 0, where there is no row for the station, or no such initiator.
pub fn expected_by(stations: &[u64], rows: u64, t: u64, s: u64) -> u64
    requires { length stations.now ≡ 116 + rows * 116 }
    ensures { result ≡ (stations_in stations.now).expected t s }
{
    if t < rows && s < 16 {
        stations::expected_of(stations, Station(t), Station(s))
    } else {
        0
    }
}

// The cart's next number for initiator s: 0, where there is no such initiator.
fn next_by(carts: &[u64], number: CartNumber, s: u64) -> u64
    requires { HasRow carts.now number.0 }
    ensures { result ≡ (carts_in carts.now).next number.0 s }
{
    if s < 16 {
        carts::next_of(carts, number, Station(s))
    } else {
        0
    }
}

// "A message is named by its initiator and its number": message n of s is in room m. Most rooms have another number, so that is asked first.
pub fn is_message(messages: &[u64], m: usize, s: u64, n: u64) -> bool
    requires { HasRoom messages.now m }
    ensures { result ≡ is_message (tables [] [] messages.now) s n m }
{
    messages::number_of(messages, m) == MessageNumber(n)
        && messages::initiator_of(messages, m) == Station(s)
        && messages::waiting_of(messages, m) != 0
}

// "no other held message has its name": no room before m has message n of s. A later room with it finds m.
fn is_alone(messages: &[u64], m: usize, s: u64, n: u64) -> bool
    requires { HasRoom messages.now m }
    ensures { result ≡ test (all m (λ k. is (not (is_message (tables [] [] messages.now) s n k)))) }
{
    for k in 0..m {
        if is_message(messages, k, s, n) {
            return false;
        }
    }
    true
}

// "where a station has handled its delete, the whole set has acknowledged": all n stations wait, or acked is the set. No word has a member
// beyond 64, so more stations than that do not all wait.
fn delete_ok(n: u64, waiting: u64, acked: u64, named: u64) -> bool
    ensures { result ≡ test (all n (λ t. when (is (not (has waiting t))) (eq acked named))) }
{
    acked == named || (n <= 64 && sets::is_within(sets::all_below(n), waiting))
}

// "its initiator has given its number; no other held message has its name; where a station has handled its delete, the whole set has
// acknowledged": the message in room m and the rooms before it.
fn held_ok(stations: &[u64], messages: &[u64], rows: u64, m: usize) -> bool
    requires { (length stations.now ≡ 116 + rows * 116) × HasRoom messages.now m }
    ensures { result ≡ test (held_before (tables stations.now [] messages.now) m) }
{
    let waiting = messages::waiting_of(messages, m);
    if waiting == 0 {
        return true;
    }
    let s = messages::initiator_of(messages, m);
    let n = messages::number_of(messages, m);
    if sent_by(stations, rows, s.0) <= n.0 {
        return false;
    }
    if !is_alone(messages, m, s.0, n.0) {
        return false;
    }
    delete_ok(
        stations::station_count(stations),
        waiting,
        messages::acked_of(messages, m),
        messages::named_of(messages, m),
    )
}

// The same of each room, and so of every two rooms.
fn messages_ok(stations: &[u64], messages: &[u64], rows: u64, held: usize) -> bool
    requires { (length stations.now ≡ 116 + rows * 116) × (length messages.now ≡ held * 7) × (held ≤ 32) }
    ensures { result ≡ test (all held (held_names held (tables stations.now [] messages.now))) }
{
    for m in 0..held {
        if !held_ok(stations, messages, rows, m) {
            return false;
        }
    }
    true
}

// "is its next": n is the next number for initiator s of every cart in the set, which are walked from the least on.
fn all_next(carts: &[u64], set: u64, s: u64, n: u64) -> bool
    requires { (c : ℕ) → has set c ≡ true → HasRow carts.now c }
    ensures { result ≡ test (all 64 (λ c. when (is (has set c)) (eq ((carts_in carts.now).next c s) n))) }
{
    for number in sets::members_of(set) {
        if next_by(carts, CartNumber(number), s) != n {
            return false;
        }
    }
    true
}

// What the stations have of one room: the carts in any of its sets, the queued ones, and those of them that are queued where they are not
// local.
#[derive(Clone, Copy)]
struct Gathered {
    sets: u64,
    queued: u64,
    strays: u64,
}

// Of room m, at the n stations that there are rows for. The mask of a station's local carts says which are local. No set is looked into, so it costs the same
// whatever they hold.
fn gather_entries(stations: &[u64], m: usize, n: u64) -> Gathered
    requires { (length stations.now ≡ 116 + n * 116) × (m < rooms) × (n ≤ 16) }
    ensures { Entries (stations_in stations.now) m n result.sets result.queued result.strays }
{
    let mut sets: u64 = 0;
    let mut queued: u64 = 0;
    let mut strays: u64 = 0;
    for t in 0..n {
        let copy = stations::copy_of(stations, m, Station(t));
        let acks = stations::acks_of(stations, m, Station(t));
        let queue = stations::queue_of(stations, m, Station(t));
        let local = stations::local_of(stations, Station(t));
        sets = sets::union(sets, sets::union(copy, sets::union(acks, queue)));
        queued = sets::union(queued, queue);
        strays = sets::union(strays, sets::minus(queue, local));
    }
    Gathered {
        sets,
        queued,
        strays,
    }
}

// "its sets are of the floor", with the greatest such set given; "a queued cart is local, the message is held, names it, and is its next": of
// room m at every station. A cart is looked at once, wherever it is queued.
fn entries_of(
    stations: &[u64],
    carts: &[u64],
    messages: &[u64],
    m: usize,
    most: u64,
    rows: u64,
) -> bool
    requires { OnTables stations.now carts.now × (m < rooms) × ((t : ℕ) → t < rows → local_right (lent whole_floor stations.now carts.now [] [] [] []) t ≡ true) × (most ≡ most_of (head_in stations.now).carts) × HasRoom messages.now m × (length stations.now ≡ 116 + rows * 116) × (rows ≤ 16) }
    ensures { result ≡ test (all rows (entry_rule limits (tables stations.now carts.now messages.now) m)) }
{
    let met = gather_entries(stations, m, rows);
    if most < met.sets || 0 < met.strays {
        return false;
    }
    if met.queued == 0 {
        return true;
    }
    if messages::waiting_of(messages, m) == 0 {
        return false;
    }
    if !sets::is_within(met.queued, messages::named_of(messages, m)) {
        return false;
    }
    let s = messages::initiator_of(messages, m);
    let n = messages::number_of(messages, m);
    all_next(carts, met.queued, s.0, n.0)
}

// The entries of every room at every station.
fn entries_ok(stations: &[u64], carts: &[u64], messages: &[u64], rows: u64, held: usize) -> bool
    requires { OnTables stations.now carts.now × ((t : ℕ) → t < rows → local_right (lent whole_floor stations.now carts.now [] [] [] []) t ≡ true) × (length stations.now ≡ 116 + rows * 116) × (rows ≤ 16) × (length messages.now ≡ held * 7) × (held ≤ 32) }
    ensures { result ≡ test (all held (λ m. all rows (entry_rule limits (tables stations.now carts.now messages.now) m))) }
{
    let most = most_of(stations::cart_count(stations));
    for m in 0..held {
        if !entries_of(stations, carts, messages, m, most, rows) {
            return false;
        }
    }
    true
}

// None of the first k is in the set: none at all is, or the least is beyond them.
fn none_below(set: u64, k: u64) -> bool
    ensures { result ≡ test (all k (λ c. is (not (has set c)))) }
{
    set == 0 || k <= sets::first(set)
}

// Of the first k, every cart in the set has received message n of s: its next number is above. They are walked from the least on.
pub fn all_past(carts: &[u64], set: u64, k: u64, s: u64, n: u64) -> bool
    requires { k * 19 ≤ length carts.now }
    ensures { result ≡ test (all k (λ c. when (is (has set c)) (lt n ((carts_in carts.now).next c s)))) }
{
    for number in sets::members_of(set) {
        if k <= number {
            return true;
        }
        if next_by(carts, CartNumber(number), s) <= n {
            return false;
        }
    }
    true
}

// "the copy has only named carts".
fn copy_named(stations: &[u64], messages: &[u64], m: usize, t: Station) -> bool
    requires { HasStation stations.now t.0 × HasRoom messages.now m × (m < rooms) }
    ensures { result ≡ test (copy_named (tables stations.now [] messages.now) m t.0) }
{
    let named = messages::named_of(messages, m);
    let copy = stations::copy_of(stations, m, t);
    none_below(sets::minus(copy, named), stations::cart_count(stations))
}

// "where the message has come": the named carts that the copy does not have.
fn missing_at(stations: &[u64], messages: &[u64], rows: u64, m: usize, t: Station) -> u64
    requires { HasStation stations.now t.0 × HasRoom messages.now m × (m < rooms) × (length stations.now ≡ 116 + rows * 116) }
    ensures { result ≡ missing_at (tables stations.now [] messages.now) m t.0 }
{
    let s = messages::initiator_of(messages, m);
    let n = messages::number_of(messages, m);
    if expected_by(stations, rows, t.0, s.0) <= n.0 {
        return 0;
    }
    sets::minus(
        messages::named_of(messages, m),
        stations::copy_of(stations, m, t),
    )
}

// How many of the sixteen stations are the floor's.
fn stations_of(stations: &[u64]) -> u64
    requires { HasHead stations.now }
    ensures { Few (head_in stations.now).stations result }
{
    stations::station_count(stations).min(16)
}

// The copies of the message in room m, if it is held, at the stations of the floor. "it has every named cart that has yet to receive it": so
// all that are missing somewhere have received it, and each is looked at once, not once for each station. Beyond sixteen stations there is
// no copy, and nothing has come.
fn copies_of(stations: &[u64], carts: &[u64], messages: &[u64], rows: u64, m: usize) -> bool
    requires { OnTables stations.now carts.now × HasRoom messages.now m × (m < rooms) × (length stations.now ≡ 116 + rows * 116) }
    ensures { result ≡ test (copies_rule (tables stations.now carts.now messages.now) m) }
{
    if messages::waiting_of(messages, m) == 0 {
        return true;
    }
    let end = stations_of(stations);
    let mut missing: u64 = 0;
    for t in 0..end {
        if !copy_named(stations, messages, m, Station(t)) {
            return false;
        }
        missing = sets::union(missing, missing_at(stations, messages, rows, m, Station(t)));
    }
    let s = messages::initiator_of(messages, m);
    let n = messages::number_of(messages, m);
    all_past(carts, missing, stations::cart_count(stations), s.0, n.0)
}

// The copies of every held message.
fn copies_ok(stations: &[u64], carts: &[u64], messages: &[u64], rows: u64, held: usize) -> bool
    requires { OnTables stations.now carts.now × (length stations.now ≡ 116 + rows * 116) × (length messages.now ≡ held * 7) × (held ≤ 32) }
    ensures { result ≡ test (all held (copies_rule (tables stations.now carts.now messages.now))) }
{
    for m in 0..held {
        if !copies_of(stations, carts, messages, rows, m) {
            return false;
        }
    }
    true
}

// At one station, no room from `held` on, which the messages' table does not have, has a copy or a queue entry.
fn rooms_end(stations: &[u64], t: Station, held: usize) -> bool
    requires { HasStation stations.now t.0 × (held ≤ 32) }
    ensures { result ≡ test (rooms_end held stations.now t.0) }
{
    for m in held..32 {
        if stations::copy_of(stations, m, t) != 0 || stations::queue_of(stations, m, t) != 0 {
            return false;
        }
    }
    true
}

// The same at each of the stations.
fn ends_ok(stations: &[u64], n: u64, held: usize) -> bool
    requires { (length stations.now ≡ 116 + n * 116) × (n ≤ 16) × (held ≤ 32) }
    ensures { result ≡ test (all n (rooms_end held stations.now)) }
{
    for t in 0..n {
        if !rooms_end(stations, Station(t), held) {
            return false;
        }
    }
    true
}

// THE FORM TEST OF THE TABLES: all of the above, of tables that have their rows. The masks of local carts are tested before the queues, which go
// by them.
pub fn tables_pass(stations: &[u64], carts: &[u64], messages: &[u64], bounds: Bounds) -> bool
    requires { Fits bounds × Sized bounds.stations bounds.carts bounds.held stations.now carts.now messages.now }
    ensures { (N : Limits) → N.last ≡ bounds.last → result ≡ test (tables_rule N bounds.stations bounds.carts bounds.held stations.now carts.now messages.now) }
{
    let n = bounds.stations;
    let k = bounds.carts;
    let held = bounds.held;
    // each returns by itself: in a chain of `&&` the proof would have to name flags that the source does not have
    if !counts_ok(stations, bounds) {
        return false;
    }
    if !stations_ok(stations, n, bounds.last) {
        return false;
    }
    if !places_ok(carts, k) {
        return false;
    }
    if !store::texts_lie_right(messages, held) {
        return false;
    }
    if !locals_ok(stations, carts, n as usize, k) {
        return false;
    }
    if !carts_ok(stations, carts, n, k) {
        return false;
    }
    if !rooms_ok(stations, messages, held) {
        return false;
    }
    if !messages_ok(stations, messages, n, held) {
        return false;
    }
    if !entries_ok(stations, carts, messages, n, held) {
        return false;
    }
    if !copies_ok(stations, carts, messages, n, held) {
        return false;
    }
    ends_ok(stations, n, held)
}
