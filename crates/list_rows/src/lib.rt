// THE MESSAGES OF LISTS KEPT BY HAND, in rows by the order of their sends: who sent it, its number, the carts that have yet to take it, and its
// text. "for every station and cart, a plain list of messages not yet received": the station's rows that the cart has yet to take.
#![tactic(auto)]

ghost use Rattle.std.specs.Prelude.{◌≡◌, List, ◌++◌, ℕ, ◌*◌, ◌<◌, ◌≤◌, None, Some, length, take, drop};
ghost use Rattle.protocol.specs.Folds.{update, by_option};
ghost use Rattle.rows.specs.Rows.{RowIn};
ghost use Rattle.list_rows.specs.Rows.{width, text_room, part_in, rows_in, message_of, new_row, taken_by, waits, first_waiting, used_rows, keep_row, squeezed, with_room};

use ids::{CartNumber, MessageNumber, Station};

// How many rows there are, and the octets that each has for its text: a send may carry "33 to 512 octets" too.
pub const ROWS: usize = 2048;

pub const TEXT: usize = 512;

// So many sends go by between two times that rows are moved together.
const OFTEN_ENOUGH: usize = 64;

// A row's words: the initiator, the number, the carts that have yet to take it, and how many octets its text has.
const WIDTH: usize = 4;

const INITIATOR: usize = 0;

const NUMBER: usize = 1;

const CARTS: usize = 2;

const SIZE: usize = 3;

// The lengths of the lent parts: the rows' words, and their octets.
pub const SENDS: usize = ROWS * WIDTH;

pub const OCTETS: usize = ROWS * TEXT;

// A message that carts have yet to take.
#[derive(Clone, Copy, Debug, PartialEq, Eq)]
pub struct Message {
    pub initiator: Station,
    pub number: MessageNumber,
    pub carts: u64,
}

// The message in a row.
pub fn message_at(sends: &[u64], row: usize) -> Message
    requires { RowIn width sends.now row }
    ensures { (octets : List ℕ) → result ≡ message_of (rows_in sends.now octets row) }
{
    Message {
        initiator: Station(rows::word_at(sends, WIDTH, row, INITIATOR)),
        number: MessageNumber(rows::word_at(sends, WIDTH, row, NUMBER)),
        carts: rows::word_at(sends, WIDTH, row, CARTS),
    }
}

// How many octets its text has.
pub fn size_at(sends: &[u64], row: usize) -> usize
    requires { RowIn width sends.now row }
    ensures { (octets : List ℕ) → result ≡ (rows_in sends.now octets row).size }
{
    rows::word_at(sends, WIDTH, row, SIZE) as usize
}

// The text of a row, of so many octets, at the front of a buffer.
pub fn copy_text(octets: &[u8], row: usize, size: usize, buffer: &mut [u8; TEXT])
    requires { RowIn text_room octets.now row × (size ≤ text_room) }
    ensures buffer_after { buffer.new ≡ take size (part_in octets.now row) ++ drop size buffer.old }
    ensures buffer_len_unchanged { length buffer.new ≡ length buffer.old }
{
    let at = row * TEXT;
    let end = at + size;
    octet_parts::copy(&octets[at..end], buffer);
}

// Another text in a row.
fn put_text(octets: &mut [u8], row: usize, text: &[u8])
    requires { RowIn text_room octets.old row × (length text.now ≤ text_room) }
    ensures octets_after { part_in octets.new ≡ update (part_in octets.old) row (text.now ++ drop (length text.now) (part_in octets.old row)) }
    ensures octets_len_unchanged { length octets.new ≡ length octets.old }
{
    let at = row * TEXT;
    let end = at + TEXT;
    octet_parts::copy(text, &mut octets[at..end]);
}

// A row written whole.
pub fn put_row(sends: &mut [u64], octets: &mut [u8], row: usize, message: Message, text: &[u8])
    requires { RowIn width sends.old row × RowIn text_room octets.old row × (length text.now ≤ text_room) }
    ensures octets_after { rows_in sends.new octets.new ≡ update (rows_in sends.old octets.old) row (new_row message.initiator.0 message.number.0 message.carts text.now) }
    ensures sends_len_unchanged { (length sends.new ≡ length sends.old) × (length octets.new ≡ length octets.old) }
{
    rows::put_word(sends, WIDTH, row, INITIATOR, message.initiator.0);
    rows::put_word(sends, WIDTH, row, NUMBER, message.number.0);
    rows::put_word(sends, WIDTH, row, CARTS, message.carts);
    rows::put_word(sends, WIDTH, row, SIZE, text.len() as u64);
    put_text(octets, row, text);
}

// A row moved to another place, message and text.
fn move_row(sends: &mut [u64], octets: &mut [u8], from: usize, to: usize)
    requires { RowIn width sends.old from × RowIn text_room octets.old from × (to ≤ from) × ((rows_in sends.old octets.old from).size ≤ text_room) }
    ensures octets_after { rows_in sends.new octets.new ≡ update (rows_in sends.old octets.old) to (rows_in sends.old octets.old from) }
    ensures sends_len_unchanged { (length sends.new ≡ length sends.old) × (length octets.new ≡ length octets.old) }
{
    let message = message_at(sends, from);
    let size = size_at(sends, from);
    let mut text = [0u8; TEXT];
    copy_text(octets, from, size, &mut text);
    put_row(sends, octets, to, message, &text[..size]);
}

// A row is moved behind the used ones, unless every cart has taken it. How many are used then. One that stands there already stays.
fn keep_row(sends: &mut [u64], octets: &mut [u8], row: usize, used: usize) -> usize
    requires { RowIn width sends.old row × RowIn text_room octets.old row × (used ≤ row) × ((rows_in sends.old octets.old row).size ≤ text_room) }
    ensures result_after { used_rows (rows_in sends.new octets.new) result ≡ keep_row (used_rows (rows_in sends.old octets.old) used) row }
    ensures sends_len_unchanged { (length sends.new ≡ length sends.old) × (length octets.new ≡ length octets.old) }
{
    let message = message_at(sends, row);
    if message.carts == 0 {
        return used;
    }
    if row == used {
        return used + 1;
    }
    move_row(sends, octets, row, used);
    used + 1
}

// Of the used rows, those that somebody has yet to take are moved together, in their order. How many they are.
fn squeeze(sends: &mut [u64], octets: &mut [u8], used: usize) -> usize
    requires { (used * width ≤ length sends.old) × (used * text_room ≤ length octets.old) × ((r : ℕ) → r < used → (rows_in sends.old octets.old r).size ≤ text_room) }
    ensures result_after { used_rows (rows_in sends.new octets.new) result ≡ squeezed (rows_in sends.old octets.old) used }
    ensures sends_len_unchanged { (length sends.new ≡ length sends.old) × (length octets.new ≡ length octets.old) }
{
    let mut kept = 0;
    for from in 0..used {
        kept = keep_row(sends, octets, from, kept);
    }
    kept
}

// The row for a new message is the one behind the used ones. Now and then, and so where all rows are used, those that every cart has taken are taken out
// first: a take looks at the rows from the first on, so few rows make it fast.
pub fn free_row(sends: &mut [u64], octets: &mut [u8], used: usize) -> usize
    requires { (used * width ≤ length sends.old) × (used * text_room ≤ length octets.old) × ((r : ℕ) → r < used → (rows_in sends.old octets.old r).size ≤ text_room) }
    ensures result_after { used_rows (rows_in sends.new octets.new) result ≡ with_room (rows_in sends.old octets.old) used }
    ensures sends_len_unchanged { (length sends.new ≡ length sends.old) × (length octets.new ≡ length octets.old) }
{
    if used % OFTEN_ENOUGH != 0 {
        return used;
    }
    squeeze(sends, octets, used)
}

// Is the row in the list of the station and the cart?
fn is_waiting(sends: &[u64], row: usize, station: Station, cart: CartNumber) -> bool
    requires { RowIn width sends.now row × (cart.0 < 64) }
    ensures { (octets : List ℕ) → result ≡ waits station.0 cart.0 (rows_in sends.now octets row) }
{
    let message = message_at(sends, row);
    station == message.initiator && sets::has(message.carts, cart.0)
}

// The row at the head of the list of the station and the cart, if the list is not empty.
pub fn find_row(sends: &[u64], used: usize, station: Station, cart: CartNumber) -> Option<usize>
    requires { (used * width ≤ length sends.now) × (cart.0 < 64) }
    ensures { (octets : List ℕ) → result ≡ by_option (first_waiting (rows_in sends.now octets) used station.0 cart.0) None Some }
{
    for row in 0..used {
        if is_waiting(sends, row, station, cart) {
            return Some(row);
        }
    }
    None
}

// The cart has taken the row's message.
pub fn cross_out(sends: &mut [u64], row: usize, cart: CartNumber)
    requires { RowIn width sends.old row × (cart.0 < 64) }
    ensures by_index { (octets : List ℕ) → rows_in sends.new octets ≡ update (rows_in sends.old octets) row (taken_by (rows_in sends.old octets row) cart.0) }
    ensures sends_len_unchanged { length sends.new ≡ length sends.old }
{
    let carts = rows::word_at(sends, WIDTH, row, CARTS);
    rows::put_word(
        sends,
        WIDTH,
        row,
        CARTS,
        sets::without_member(carts, cart.0),
    );
}
