// THE FORM TEST OF THE LINES, over the lent parts: one pass over the records, with masks of what was met.
#![tactic(auto)]

ghost use Rattle.std.specs.Prelude.{◌≡◌, ◌&&◌, ◌||◌, not, true, false, List, ℕ, ◌+◌, ◌*◌, ◌<◌, ◌≤◌, ◌^◌, eqb, leb, ltb, length};
ghost use Rattle.protocol.specs.Folds.{every, list_of};
ghost use Rattle.protocol.specs.CartSets.{has};
ghost use Rattle.protocol.specs.Floor.{moving};
ghost use Rattle.sets.specs.Masks.{within};
ghost use Rattle.stations.specs.View.{rooms, stations_in, head_in};
ghost use Rattle.protocol.specs.Floor.{Product};
ghost use Rattle.view.specs.View.{lent};
ghost use Rattle.carts.specs.Records.{seen};
ghost use Rattle.carts.specs.View.{carts_in};
ghost use Rattle.carts.specs.Words.{HasRow};
ghost use Rattle.messages.specs.View.{rooms_in};
ghost use Rattle.view.specs.Records.{is_in};
ghost use Rattle.lines.specs.Form.{form, sized};
ghost use Rattle.lines.specs.Words.{rows_at};
ghost use Rattle.lines.specs.Lines.{registers_in};
ghost use Rattle.lines.specs.Parts.{Walked};
ghost use Rattle.form_lines.specs.Said.{a_multicast, an_ack_list, a_delete, a_deregister, said, said_on};
ghost use Rattle.form_lines.specs.Pass.{is_leaving, is_travelling, same_numbers, right, provided, fresh, meet, along, on_line, from_station, from_each, gathered, apart, is_taken, passed, ended, movers, passes, lines_pass};
ghost use Rattle.form_lines.specs.Ways.{met_of, outcome, Inside, WholeRooms, Whole, is_whole, Met, Checked};

use carts::Place;
use ids::{CartNumber, Station};
use lines::Record;
use view::Kind;

// ---- A record against the tables.

// The messages' table has room m.
fn has_room(messages: &[u64], m: usize) -> bool
    requires { m < rooms }
    ensures { result ≡ leb (m * 7 + 7) (length messages.now) }
{
    m * 7 + 7 <= messages.len()
}

// The initiator's message of that number is in room m, which is one of the rooms.
fn in_room(messages: &[u64], s: u64, number: u64, m: u64) -> bool
    requires { WholeRooms messages.now }
    ensures { result ≡ (ltb m 32 && is_in (rooms_in messages.now) s number m) }
{
    if 32 <= m || !has_room(messages, m as usize) {
        return false;
    }
    form_tables::is_message(messages, m as usize, s, number)
}

// A multicast from i to j is of a held message of i, and j has yet to handle its delete.
fn multicast_right(messages: &[u64], i: u64, j: u64, m: u64, number: u64) -> bool
    requires { WholeRooms messages.now × (j < 16) }
    ensures { result ≡ ((ltb m 32 && is_in (rooms_in messages.now) i number m) && has ((rooms_in messages.now).waiting m) j) }
{
    in_room(messages, i, number, m) && sets::has(messages::waiting_of(messages, m as usize), j)
}

// An ack list to j is of a held message of j, and of some carts of the floor, which has k.
fn ack_list_right(messages: &[u64], k: u64, j: u64, m: u64, number: u64, carts: u64) -> bool
    requires { WholeRooms messages.now × (k ≤ 64) }
    ensures { result ≡ ((ltb m 32 && is_in (rooms_in messages.now) j number m) && (ltb 0 carts && ltb carts (2 ^ k))) }
{
    let all = sets::all_below(k);
    in_room(messages, j, number, m) && (0 < carts && carts <= all)
}

// A delete from i to j is of a held message of i that the whole set has acknowledged, and j has yet to handle it.
fn delete_right(messages: &[u64], i: u64, j: u64, m: u64, number: u64) -> bool
    requires { WholeRooms messages.now × (j < 16) }
    ensures { result ≡ ((ltb m 32 && is_in (rooms_in messages.now) i number m) && (has ((rooms_in messages.now).waiting m) j && eqb ((rooms_in messages.now).acked m) ((rooms_in messages.now).named m))) }
{
    let at = m as usize;
    in_room(messages, i, number, m)
        && (sets::has(messages::waiting_of(messages, at), j)
            && messages::acked_of(messages, at) == messages::named_of(messages, at))
}

// Leaving s for u?
fn is_leaving(place: Place, s: u64, u: u64) -> bool
    ensures { result ≡ is_leaving (seen place) s u }
{
    matches!(place, Place::Leaving(from, to) if from.0 == s && to.0 == u)
}

// Travelling from s to u?
fn is_travelling(place: Place, s: u64, u: u64) -> bool
    ensures { result ≡ is_travelling (seen place) s u }
{
    matches!(place, Place::Travelling(from, to) if from.0 == s && to.0 == u)
}

// A deregister from i to j is of one of the k carts, which is leaving j for i.
fn deregister_right(carts: &[u64], k: u64, i: u64, j: u64, cart: u64) -> bool
    requires { (k * 19 ≤ length carts.now) × (k ≤ 64) }
    ensures { result ≡ (ltb cart k && is_leaving ((carts_in carts.now).place cart) j i) }
{
    cart < k && is_leaving(carts::place_of(carts, CartNumber(cart)), j, i)
}

// Does the cart's register carry "the cart's whole row of next numbers"?
fn carries_row(carts: &[u64], lines: &[u64], cart: CartNumber) -> bool
    requires { HasRow carts.now cart.0 × (rows_at ≤ length lines.now) × (cart.0 < 64) }
    ensures { result ≡ same_numbers (registers_in lines.now cart.0) ((carts_in carts.now).next cart.0) }
{
    let row = lines::register_of(lines, cart.0 as usize);
    let mut ok = true;
    for s in 0..16 {
        let next = carts::next_of(carts, cart, Station(s as u64));
        ok &= row[s] == next;
    }
    ok
}

// A register from i to j is of one of the k carts, which travels from i to j, and carries that cart's row.
fn register_right(carts: &[u64], lines: &[u64], k: u64, i: u64, j: u64, cart: u64) -> bool
    requires { (k * 19 ≤ length carts.now) × (rows_at ≤ length lines.now) × (k ≤ 64) }
    ensures { result ≡ (ltb cart k && (is_travelling ((carts_in carts.now).place cart) i j && same_numbers (registers_in lines.now cart) ((carts_in carts.now).next cart))) }
{
    let number = CartNumber(cart);
    cart < k
        && (is_travelling(carts::place_of(carts, number), i, j)
            && carries_row(carts, lines, number))
}

// A record on the line from i to j, on a floor of k carts.
fn is_right(
    messages: &[u64],
    carts: &[u64],
    lines: &[u64],
    k: u64,
    i: u64,
    j: u64,
    r: Record,
) -> bool
    requires { WholeRooms messages.now × (k * 19 ≤ length carts.now) × (rows_at ≤ length lines.now) × (k ≤ 64) × (j < 16) }
    ensures { (n : ℕ) → result ≡ right n k (carts_in carts.now) (rooms_in messages.now) (registers_in lines.now) i j (said r) }
{
    let Some(kind) = view::kind_said(r) else {
        return false;
    };
    let index = view::index_of(r);
    let number = view::number_of(r);
    match kind {
        Kind::Multicast => multicast_right(messages, i, j, index, number),
        Kind::AckList => ack_list_right(messages, k, j, index, number, r.1),
        Kind::Delete => delete_right(messages, i, j, index, number),
        Kind::Deregister => deregister_right(carts, k, i, j, index),
        Kind::Register => register_right(carts, lines, k, i, j, index),
    }
}

// ---- A record against what was met.

// What was met on the way: nothing was wrong; on this line the number of its next multicast and the rooms whose delete was met; the carts
// whose hand-off was met. The carts whose acknowledgement was met stand in a word for each room, beside it.
// `ok` makes no Option of the rest: what was met is promised past a wrong record too.
#[derive(Clone, Copy)]
struct Way {
    ok: bool,
    next: u64,
    gone: u64,
    found: u64,
}

// Something is wrong.
fn failed(way: Way) -> Way
    ensures { (seen : List ℕ) → met_of result seen ≡ provided false (met_of way seen) }
{
    Way { ok: false, ..way }
}

// A multicast counts up.
fn note_multicast(way: Way, right: bool, m: u64, number: u64) -> Way
    requires { number < 18446744073709551615 }
    ensures { (seen : List ℕ) → met_of result seen ≡ outcome (right && fresh (met_of way seen) (a_multicast m number)) (met_of way seen) (a_multicast m number) }
{
    if right && number == way.next {
        Way {
            next: number + 1,
            ..way
        }
    } else {
        failed(way)
    }
}

// An ack list is of carts that were not met.
fn note_ack_list(masks: &mut [u64], way: Way, right: bool, m: u64, carts: u64) -> Way
    requires { (length masks.old ≡ 32) × (right ≡ true → m < rooms) }
    ensures by_index { (x : ℕ) → met_of result masks.new ≡ outcome (right && fresh (met_of way masks.old) (an_ack_list m x carts)) (met_of way masks.old) (an_ack_list m x carts) }
    ensures masks_len_unchanged { length masks.new ≡ length masks.old }
{
    if !right {
        return failed(way);
    }
    let at = m as usize;
    let met = masks[at];
    if !sets::is_disjoint(carts, met) {
        return failed(way);
    }
    masks[at] = sets::union(met, carts);
    way
}

// A delete is of a number passed before it, and met once.
fn note_delete(way: Way, right: bool, m: u64, number: u64) -> Way
    requires { right ≡ true → m < rooms }
    ensures { (seen : List ℕ) → met_of result seen ≡ outcome (right && fresh (met_of way seen) (a_delete m number)) (met_of way seen) (a_delete m number) }
{
    if right && number < way.next && !sets::has(way.gone, m) {
        Way {
            gone: sets::with_member(way.gone, m),
            ..way
        }
    } else {
        failed(way)
    }
}

// A cart has one hand-off.
fn note_handoff(way: Way, right: bool, cart: u64) -> Way
    requires { right ≡ true → cart < 64 }
    ensures { (seen : List ℕ) → met_of result seen ≡ outcome (right && fresh (met_of way seen) (a_deregister cart)) (met_of way seen) (a_deregister cart) }
{
    if right && !sets::has(way.found, cart) {
        Way {
            found: sets::with_member(way.found, cart),
            ..way
        }
    } else {
        failed(way)
    }
}

// A record against what was met, once it fits the tables.
fn take(masks: &mut [u64], way: Way, right: bool, r: Record) -> Way
    requires { (length masks.old ≡ 32) × (right ≡ true → Inside (said r)) }
    ensures masks_after { met_of result masks.new ≡ outcome (right && fresh (met_of way masks.old) (said r)) (met_of way masks.old) (said r) }
    ensures masks_len_unchanged { length masks.new ≡ length masks.old }
{
    let Some(kind) = view::kind_said(r) else {
        return failed(way);
    };
    let index = view::index_of(r);
    let number = view::number_of(r);
    match kind {
        Kind::Multicast => note_multicast(way, right, index, number),
        Kind::AckList => note_ack_list(masks, way, right, index, r.1),
        Kind::Delete => note_delete(way, right, index, number),
        Kind::Deregister => note_handoff(way, right, index),
        Kind::Register => note_handoff(way, right, index),
    }
}

// The stations that there are rows for, and how many stations and carts the floor has.
#[derive(Clone, Copy)]
struct Size {
    rows: u64,
    stations: u64,
    carts: u64,
}

// The next record of the line from i to j, on a floor of that size.
fn meet(
    masks: &mut [u64],
    messages: &[u64],
    carts: &[u64],
    lines: &[u64],
    size: Size,
    i: u64,
    j: u64,
    way: Way,
    r: Record,
) -> Way
    requires { (length masks.old ≡ 32) × WholeRooms messages.now × (size.carts * 19 ≤ length carts.now) × (rows_at ≤ length lines.now) × (size.carts ≤ 64) × (j < 16) }
    ensures masks_after { met_of result masks.new ≡ meet size.stations size.carts (carts_in carts.now) (rooms_in messages.now) (registers_in lines.now) (met_of way masks.old) i j (said r) }
    ensures masks_len_unchanged { length masks.new ≡ length masks.old }
{
    let right = is_right(messages, carts, lines, size.carts, i, j, r);
    // all are at hand, so that `&` has nothing to guess
    let open = way.ok & ((i < size.stations) & (j < size.stations));
    take(masks, way, open & right, r)
}

// The records of the line from i to j, one after the other, with a mark for each row that they lie in: what was met, or None where a row is none
// of the pool's, is met twice, or the tail is another.
fn along(
    masks: &mut [u64],
    seen: &mut [u64],
    messages: &[u64],
    carts: &[u64],
    lines: &[u64],
    size: Size,
    i: u64,
    j: u64,
    way: Way,
) -> Option<Way>
    requires { (length masks.old ≡ 32) × (length seen.old ≡ 49) × WholeRooms messages.now × (size.carts * 19 ≤ length carts.now) × (sized lines.now ≡ true) × (size.carts ≤ 64) × (i < 16) × (j < 16) }
    ensures walked { Walked lines.now (i * 16 + j) seen.old seen.new (is_whole result) }
    ensures masks_after { Met result masks.new (along size.stations size.carts (carts_in carts.now) (rooms_in messages.now) (registers_in lines.now) (met_of way masks.old) i j (said_on lines.now i j)) × ((length masks.new ≡ length masks.old) × (length seen.new ≡ length seen.old)) }
{
    let line = (i * 16 + j) as usize;
    let rows = lines::row_count(lines);
    let mut left = lines::length_of(lines, line);
    let mut row = lines::head_of(lines, line);
    let mut last = lines::tail_of(lines, line);
    let mut met = way;
    // what is left is counted down, not up: the laws of a chain speak of its rest
    while 0 < left {
        if rows <= row {
            return None;
        }
        if lines::is_marked(seen, row) {
            return None;
        }
        lines::mark(seen, row);
        let r = lines::record_of(lines, row);
        met = meet(masks, messages, carts, lines, size, i, j, met, r);
        last = row;
        row = lines::next_of(lines, row);
        left -= 1;
    }
    if last == lines::tail_of(lines, line) {
        Some(met)
    } else {
        None
    }
}

// ---- All lines.

// The line from i to j: its multicasts run from the number that j expects up to what i has sent.
fn on_line(
    masks: &mut [u64],
    seen: &mut [u64],
    stations: &[u64],
    messages: &[u64],
    carts: &[u64],
    lines: &[u64],
    size: Size,
    i: u64,
    j: u64,
    way: Way,
) -> Option<Way>
    requires { (length masks.old ≡ 32) × (length seen.old ≡ 49) × (length stations.now ≡ 116 + size.rows * 116) × WholeRooms messages.now × (size.carts * 19 ≤ length carts.now) × (sized lines.now ≡ true) × (size.carts ≤ 64) × (i < 16) × (j < 16) }
    ensures walked { Walked lines.now (i * 16 + j) seen.old seen.new (is_whole result) }
    ensures masks_after { Met result masks.new (on_line size.stations size.carts (carts_in carts.now) (rooms_in messages.now) (stations_in stations.now) lines.now (met_of way masks.old) i j) }
    ensures masks_len_unchanged { (length masks.new ≡ length masks.old) × (length seen.new ≡ length seen.old) }
{
    let expected = form_tables::expected_by(stations, size.rows, j, i);
    let sent = form_tables::sent_by(stations, size.rows, i);
    let begin = Way {
        next: expected,
        gone: 0,
        ..way
    };
    let met = along(masks, seen, messages, carts, lines, size, i, j, begin)?;
    let ok = met.ok & ((size.stations <= j) | (met.next == sent));
    Some(Way { ok, ..met })
}

// The lines from station i, once those of the stations before it are whole.
fn from_station(
    masks: &mut [u64],
    seen: &mut [u64],
    stations: &[u64],
    messages: &[u64],
    carts: &[u64],
    lines: &[u64],
    size: Size,
    i: u64,
    way: Way,
) -> Option<Way>
    requires { (length masks.old ≡ 32) × (length seen.old ≡ 49) × (length stations.now ≡ 116 + size.rows * 116) × WholeRooms messages.now × (size.carts * 19 ≤ length carts.now) × (sized lines.now ≡ true) × (size.carts ≤ 64) × (i < 16) × Whole lines.now (i * 16) seen.old }
    ensures { Checked lines.now (i * 16 + 16) seen.new result masks.new (from_station size.stations size.carts (carts_in carts.now) (rooms_in messages.now) (stations_in stations.now) lines.now (met_of way masks.old) i 16) × ((length masks.new ≡ length masks.old) × (length seen.new ≡ length seen.old)) }
{
    let mut met = way;
    for j in 0..16 {
        met = on_line(
            masks, seen, stations, messages, carts, lines, size, i, j, met,
        )?;
    }
    Some(met)
}

// The lines from each station, where no row is marked yet.
fn from_each(
    masks: &mut [u64],
    seen: &mut [u64],
    stations: &[u64],
    messages: &[u64],
    carts: &[u64],
    lines: &[u64],
    size: Size,
    way: Way,
) -> Option<Way>
    requires { (length masks.old ≡ 32) × (length seen.old ≡ 49) × (length stations.now ≡ 116 + size.rows * 116) × WholeRooms messages.now × (size.carts * 19 ≤ length carts.now) × (sized lines.now ≡ true) × (size.carts ≤ 64) × Whole lines.now 0 seen.old }
    ensures checked { Checked lines.now 256 seen.new result masks.new (from_each size.stations size.carts (carts_in carts.now) (rooms_in messages.now) (stations_in stations.now) lines.now (met_of way masks.old) 16) }
    ensures masks_len_unchanged { (length masks.new ≡ length masks.old) × (length seen.new ≡ length seen.old) }
{
    let mut met = way;
    for i in 0..16 {
        met = from_station(masks, seen, stations, messages, carts, lines, size, i, met)?;
    }
    Some(met)
}

// ---- Before the lines.

// The stations that wait for the delete of the message in room m, and the carts known to have it: none, where the table has no such room.
// The two differ in the word that they read alone: one function that is passed what to read would be no plainer.
fn waiting_by(messages: &[u64], m: usize) -> u64
    requires { WholeRooms messages.now × (m < rooms) }
    ensures { result ≡ (rooms_in messages.now).waiting m }
{
    if has_room(messages, m) {
        messages::waiting_of(messages, m)
    } else {
        0
    }
}

fn acked_by(messages: &[u64], m: usize) -> u64
    requires { WholeRooms messages.now × (m < rooms) }
    ensures { result ≡ (rooms_in messages.now).acked m }
{
    if has_room(messages, m) {
        messages::acked_of(messages, m)
    } else {
        0
    }
}

// The acknowledgements at the initiator and in the ack lists: they stand in one place, and whose they are.
// `apart` makes no Option of the carts: those of a free room are asked for, wherever they stand.
#[derive(Clone, Copy)]
struct Acked {
    apart: bool,
    carts: u64,
}

// Of the message in room m, on a floor of n stations.
fn gather_acks(stations: &[u64], messages: &[u64], n: u64, m: usize) -> Acked
    requires { (n * 116 + 116 ≤ length stations.now) × WholeRooms messages.now × (n ≤ 16) × (m < rooms) }
    ensures { (result.apart ≡ apart (stations_in stations.now) (rooms_in messages.now) m n) × (result.carts ≡ gathered (stations_in stations.now) (rooms_in messages.now) m n) }
{
    let mut carts = acked_by(messages, m);
    let mut apart = true;
    for t in 0..n {
        let acks = stations::acks_of(stations, m, Station(t));
        apart &= sets::is_disjoint(acks, carts);
        carts = sets::union(carts, acks);
    }
    Acked { apart, carts }
}

// Of every room; those of a held message stand in one place.
fn begin(masks: &mut [u64], stations: &[u64], messages: &[u64], n: u64) -> bool
    requires { (length masks.old ≡ 32) × (n * 116 + 116 ≤ length stations.now) × WholeRooms messages.now × (n ≤ 16) }
    ensures value { result ≡ every 32 (λ m. not (is_taken (rooms_in messages.now) m) || apart (stations_in stations.now) (rooms_in messages.now) m n) }
    ensures masks_after { masks.new ≡ list_of 32 (λ m. gathered (stations_in stations.now) (rooms_in messages.now) m n) }
{
    let mut ok = true;
    for m in 0..32 {
        let met = gather_acks(stations, messages, n, m);
        let waiting = waiting_by(messages, m);
        ok &= (waiting == 0) | met.apart;
        masks[m] = met.carts;
    }
    ok
}

// ---- After the lines.

// Whoever acknowledged the message in room m is named, and has passed it, if it is held.
fn has_ended(messages: &[u64], carts: &[u64], k: u64, m: usize, set: u64) -> bool
    requires { WholeRooms messages.now × (k * 19 ≤ length carts.now) × (k ≤ 64) × (m < rooms) }
    ensures { result ≡ (not (is_taken (rooms_in messages.now) m) || (within 64 set ((rooms_in messages.now).named m) && passed k (carts_in carts.now) (rooms_in messages.now) m set)) }
{
    if waiting_by(messages, m) == 0 {
        return true;
    }
    if !sets::is_within(set, messages::named_of(messages, m)) {
        return false;
    }
    let s = messages::initiator_of(messages, m);
    let n = messages::number_of(messages, m);
    form_tables::all_past(carts, set, k, s.0, n.0)
}

// In every room.
fn all_ended(masks: &[u64], messages: &[u64], carts: &[u64], k: u64) -> bool
    requires { (length masks.now ≡ 32) × WholeRooms messages.now × (k * 19 ≤ length carts.now) × (k ≤ 64) }
    ensures { result ≡ every 32 (ended k (carts_in carts.now) (rooms_in messages.now) masks.now) }
{
    let mut ok = true;
    for m in 0..32 {
        ok &= has_ended(messages, carts, k, m, masks[m]);
    }
    ok
}

// "leaving or travelling"?
fn is_moving(place: Place) -> bool
    ensures { result ≡ moving (seen place) }
{
    matches!(place, Place::Leaving(_, _) | Place::Travelling(_, _))
}

// Those of the k carts that are leaving or travelling.
fn movers(carts: &[u64], k: u64) -> u64
    requires { (k * 19 ≤ length carts.now) × (k ≤ 64) }
    ensures { result ≡ movers k (carts_in carts.now) }
{
    let mut set: u64 = 0;
    for cart in 0..k {
        let place = carts::place_of(carts, CartNumber(cart));
        set = sets::with_if(set, cart, is_moving(place));
    }
    set
}

// ---- THE PASS, on a floor of that size. It walks each line once, for its chain of rows and for its records.
fn passes(stations: &[u64], carts: &[u64], messages: &[u64], lines: &[u64], size: Size) -> bool
    requires { (length stations.now ≡ 116 + size.rows * 116) × (size.carts * 19 ≤ length carts.now) × WholeRooms messages.now × (sized lines.now ≡ true) × (size.stations ≤ 16) × (size.carts ≤ 64) × (size.stations ≤ size.rows) }
    ensures { result ≡ (form lines.now && passes size.stations size.carts (stations_in stations.now) (carts_in carts.now) (rooms_in messages.now) lines.now) }
{
    let mut masks = [0u64; 32];
    let mut seen = [0u64; 49];
    let ok = begin(&mut masks, stations, messages, size.stations);
    let way = Way {
        ok,
        next: 0,
        gone: 0,
        found: 0,
    };
    let Some(met) = from_each(
        &mut masks, &mut seen, stations, messages, carts, lines, size, way,
    ) else {
        return false;
    };
    if !lines::rest_ok(lines, &seen) {
        return false;
    }
    let ends = all_ended(&masks, messages, carts, size.carts);
    let set = movers(carts, size.carts);
    met.ok & ((met.found == set) & ends)
}

// Of the lent parts, with the form of the pool itself: of so many rows of stations, on a floor whose stations and carts have rows.
pub fn lines_pass(
    stations: &[u64],
    carts: &[u64],
    messages: &[u64],
    lines: &[u64],
    rows: u64,
) -> bool
    requires { (length stations.now ≡ 116 + rows * 116) × (rows ≤ 16) × ((head_in stations.now).stations ≤ rows) × ((head_in stations.now).carts ≤ 64) × ((head_in stations.now).carts * 19 ≤ length carts.now) × WholeRooms messages.now × (sized lines.now ≡ true) }
    ensures { (P : Product) (texts store : List ℕ) → result ≡ (form lines.now && lines_pass (lent P stations.now carts.now messages.now lines.now texts store)) }
{
    let size = Size {
        rows,
        stations: stations::station_count(stations),
        carts: stations::cart_count(stations),
    };
    passes(stations, carts, messages, lines, size)
}
