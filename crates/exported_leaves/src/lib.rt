// Leaf functions, and the form test, for programs in other languages: bench/leaves and bench/form measure them beside plain Rust. Each does
// what it calls does.
#![tactic(auto)]

ghost use Rattle.std.specs.Prelude.{◌≡◌, true, ℕ, ◌+◌, ◌*◌, ◌<◌, ◌≤◌, length};
ghost use Rattle.protocol.specs.CartSets.{has, minus};
ghost use Rattle.protocol.specs.Floor.{whole_floor, limits};
ghost use Rattle.protocol.specs.Form.{passes_form};
ghost use Rattle.protocol.specs.Wireless.{head_among};
ghost use Rattle.view.specs.View.{lent, floor_in};
ghost use Rattle.sets.specs.Masks.{disjoint};
ghost use Rattle.stations.specs.View.{initiators, rooms, HasStation, stations_in, naming_in};
ghost use Rattle.carts.specs.View.{carts_in};
ghost use Rattle.carts.specs.Words.{HasRow};
ghost use Rattle.protocol.specs.Folds.{list_of};
ghost use Rattle.exported_leaves.specs.Passed.{passed_by};
ghost use Rattle.queue.specs.Rooms.{tables_floor, room_count, HasRooms, QueueRooms, room_word};
ghost use Rattle.queue.specs.Keys.{Keyed};
ghost use Rattle.lines.specs.Form.{form, sized};
ghost use Rattle.lines.specs.Lines.{records_on, used};
ghost use Rattle.lines.specs.Words.{capacity};
ghost use Rattle.lines.specs.Post.{Pushed, Popped, Cleared};

use ids::{CartNumber, Station};
use lines::Record;

// No record is on any line.
#[unsafe(no_mangle)]
pub extern "C" fn mekhturia_clear(pool: &mut [u64])
    requires { sized pool.old ≡ true }
    ensures { Cleared pool.old pool.new }
{
    lines::clear(pool);
}

// A record joins the line from i to j.
#[unsafe(no_mangle)]
pub extern "C" fn mekhturia_push(pool: &mut [u64], i: usize, j: usize, word: u64, carts: u64)
    requires { (i < 16) × (j < 16) × (form pool.old ≡ true) × (used pool.old < capacity pool.old) }
    ensures { Pushed pool.old pool.new (i * 16 + j) (record { 0 = word; 1 = carts }) }
{
    lines::push_back(pool, i, j, Record(word, carts));
}

// The head of the line from i to j leaves it.
#[unsafe(no_mangle)]
pub extern "C" fn mekhturia_pop(pool: &mut [u64], i: usize, j: usize)
    requires { (i < 16) × (j < 16) × (form pool.old ≡ true) × (0 < length (records_on pool.old (i * 16 + j))) }
    ensures { Popped pool.old pool.new (i * 16 + j) }
{
    lines::pop_front(pool, i, j);
}

// The room of the head of the queue at a station; 32 where it is empty.
#[unsafe(no_mangle)]
pub extern "C" fn mekhturia_head(stations: &[u64], messages: &[u64], t: u64) -> usize
    requires { HasStation stations.now t × QueueRooms stations.now messages.now t × Keyed (tables_floor stations.now messages.now) t }
    ensures { result ≡ room_word (head_among (tables_floor stations.now messages.now) t 32) }
{
    queue::head(stations, messages, Station(t)).unwrap_or(32)
}

// "every local cart in the copy is in the ack list"
#[unsafe(no_mangle)]
pub extern "C" fn mekhturia_all_acked(stations: &[u64], m: usize, t: u64) -> bool
    requires { HasStation stations.now t × (m < rooms) }
    ensures { result ≡ disjoint 64 ((stations_in stations.now).local t) (minus ((stations_in stations.now).copy m t) ((stations_in stations.now).acks m t)) }
{
    queue::all_acked(stations, m, Station(t))
}

// How far the cart's next numbers rise at the station: "the numbers passed over".
#[unsafe(no_mangle)]
pub extern "C" fn mekhturia_catch_up(
    stations: &[u64],
    carts: &[u64],
    messages: &[u64],
    t: u64,
    c: u64,
) -> u64
    requires has_station { HasStation stations.now t × HasRooms messages.now × HasRow carts.now c × (t < 16) × (c < 64) }
    requires by_index { (s : ℕ) → s < initiators → (stations_in stations.now).expected t s ≤ 4294967295 }
    requires by_index_2 { (m : ℕ) → has (naming_in (stations_in stations.now) t c) m ≡ true → m < room_count messages.now }
    ensures { result ≡ passed_by (tables_floor stations.now messages.now) t c (list_of 16 ((carts_in carts.now).next c)) }
{
    let row = carts::row_of(carts, CartNumber(c));
    let naming = stations::rooms_naming(stations, Station(t), CartNumber(c));
    let stopped = catchup::stops_of(stations, messages, Station(t), CartNumber(c), naming, row);
    let upto = stopped.upto;
    catchup::passed_over(row, upto)
}

// The form test of the lent floor.
#[unsafe(no_mangle)]
pub extern "C" fn mekhturia_passes(
    stations: &[u64],
    carts: &[u64],
    messages: &[u64],
    lines: &[u64],
    texts: &[u8],
    store: &[u8],
) -> bool
    ensures { result ≡ passes_form limits (floor_in (lent whole_floor stations.now carts.now messages.now lines.now texts.now store.now)) }
{
    form_test::passes(
        stations,
        carts,
        messages,
        lines,
        texts,
        store,
        products::floor_bounds(),
    )
}
