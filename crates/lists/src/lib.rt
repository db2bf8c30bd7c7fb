// A LIST KEPT BY HAND: "an engine anyone can follow: for every station and cart, a plain list of messages not yet received". A start, a send and
// a take.
//
// Each send has a row in a table, in the order of the sends (`list_rows`), and the list of a station and a cart is the station's rows that the
// cart has yet to take. A send writes a row behind the others; a take finds the first row that waits for the cart, and crosses the cart out.
//
// `start` takes any words. `send` and `take` ask for lists that are ready, those that pass the form rule or are not started, and leave them so:
// who feeds lists from a start on need not test them at each call. `tested_lists` has the calls that ask for nothing.
#![tactic(auto)]

ghost use Rattle.std.specs.Prelude.{◌≡◌, true, ◌++◌, ◌-◌, ◌<◌, ◌≤◌, length, drop, set};
ghost use Rattle.protocol.specs.Folds.{update};
ghost use Rattle.protocol.specs.Floor.{limits};
ghost use Rattle.protocol.specs.Refusals.{wrong_size};
ghost use Rattle.protocol.specs.PlainLists.{plain_start, plain_send, plain_passes, appended};
ghost use Rattle.rows.specs.Rows.{RowIn};
ghost use Rattle.refusals.specs.Numbers.{refusal_in};
ghost use Rattle.list_rows.specs.Rows.{width, text_room, rows_in, taken_by};
ghost use Rattle.lists.specs.View.{lent_lists, lent_right, count_words, counts_in, lists_in, SizedCounts};
ghost use Rattle.lists.specs.Calls.{ListsMet, ListsHanded, ListsReady, send_checks, take_checks};

use ids::{CartNumber, MessageNumber, Station};
use list_rows::Message;
use refusals::Refusal;

// The words of the counts: the mark, how many stations, how many carts, how many rows are used, how many entries all lists have, and from `SENT`
// on the count of each station's sends.
pub const COUNTS: usize = 21;

pub const MARK: usize = 0;

pub const STATIONS: usize = 1;

pub const CARTS: usize = 2;

pub const USED: usize = 3;

pub const ENTRIES: usize = 4;

pub const SENT: usize = 5;

// The mark that says started.
pub const STARTED: u64 = 1;

// "It holds at most 2,048 = 32 × 64 entries"; "the last number being 4,294,967,294"; "Stations 1 to 16", "Carts 1 to 64".
pub const MOST_ENTRIES: u64 = 2048;

pub const LAST: u64 = 4294967294;

const MOST_STATIONS: u64 = 16;

const MOST_CARTS: u64 = 64;

// What an accepted call replies.
#[derive(Clone, Copy, Debug, PartialEq, Eq)]
pub enum Reply {
    // The lists are started.
    Begun,
    // The number that the message has.
    Sent(MessageNumber),
    // The number of the message at the head of the list, and how many octets its text has.
    Took(MessageNumber, usize),
}

// Have the lent parts their lengths?
pub fn lengths_ok(counts: &[u64], sends: &[u64], octets: &[u8]) -> bool
    ensures { result ≡ lent_right (lent_lists counts.now sends.now octets.now) }
{
    counts.len() == COUNTS && sends.len() == list_rows::SENDS && octets.len() == list_rows::OCTETS
}

// 7: stations not 1 to 16, or carts not 1 to 64.
pub fn wrong_size(n: u64, k: u64) -> bool
    ensures { result ≡ wrong_size limits n k }
{
    n == 0 || MOST_STATIONS < n || k == 0 || MOST_CARTS < k
}

// "A start sets them up empty, checked as the floor's": the lengths of the lent parts, 5, the mark, 6, and the two numbers, 7.
pub fn start(
    counts: &mut [u64],
    sends: &[u64],
    octets: &[u8],
    n: u64,
    k: u64,
) -> Result<Reply, Refusal>
    ensures { ListsMet (lent_lists counts.old sends.now octets.now) (lent_lists counts.new sends.now octets.now) (plain_start n k) result }
{
    if !lengths_ok(counts, sends, octets) {
        return Err(Refusal::NotReady);
    }
    if counts[MARK] == STARTED {
        return Err(Refusal::AlreadyStarted);
    }
    if wrong_size(n, k) {
        return Err(Refusal::WrongSize);
    }
    rows::clear(counts);
    counts[MARK] = STARTED;
    counts[STATIONS] = n;
    counts[CARTS] = k;
    Ok(Reply::Begun)
}

// The refusal of a send with a text of so many octets: "4 a text longer than a send may carry, 5 lists not started .., 8, 9, 13 by that
// count, then 30 a send whose entries would make more than 2,048".
fn send_refusal(counts: &[u64], station: Station, set: u64, size: usize) -> Result<(), Refusal>
    requires { SizedCounts counts.now }
    ensures { refusal_in result ≡ send_checks (counts_in counts.now) station.0 set size }
{
    if list_rows::TEXT < size {
        return Err(Refusal::WrongLength);
    }
    if counts[MARK] != STARTED {
        return Err(Refusal::NotReady);
    }
    if counts[STATIONS] <= station.0 {
        return Err(Refusal::NoSuchStation);
    }
    if sets::all_below(counts[CARTS]) < set {
        return Err(Refusal::NoSuchCart);
    }
    let at = SENT + station.0 as usize;
    if LAST < counts[at] {
        return Err(Refusal::NumbersUsed);
    }
    if MOST_ENTRIES < counts[ENTRIES] + sets::count(set) {
        return Err(Refusal::TooManyEntries);
    }
    Ok(())
}

// The refusal of a take: 5, 8, 9. That the list is empty, 31, is seen by looking for its head.
fn take_refusal(counts: &[u64], station: Station, cart: CartNumber) -> Result<(), Refusal>
    requires { SizedCounts counts.now }
    ensures { refusal_in result ≡ take_checks (counts_in counts.now) station.0 cart.0 }
{
    if counts[MARK] != STARTED {
        return Err(Refusal::NotReady);
    }
    if counts[STATIONS] <= station.0 {
        return Err(Refusal::NoSuchStation);
    }
    if counts[CARTS] <= cart.0 {
        return Err(Refusal::NoSuchCart);
    }
    Ok(())
}

// "A send appends its text, under the lists' own count of that station's sends, to the lists of the named carts". It answers the number. A send
// that names no cart only counts: it is in no list, and needs no row.
fn append(
    counts: &mut [u64],
    sends: &mut [u64],
    octets: &mut [u8],
    station: Station,
    set: u64,
    text: &[u8],
) -> MessageNumber
    requires octets_value { plain_passes limits (lists_in (lent_lists counts.old sends.old octets.old)) ≡ true }
    requires text_value { send_checks (counts_in counts.old) station.0 set (length text.now) ≡ 0 }
    ensures result_value { result.0 ≡ (counts_in counts.old).sent station.0 }
    ensures octets_after { lists_in (lent_lists counts.new sends.new octets.new) ≡ appended (lists_in (lent_lists counts.old sends.old octets.old)) station.0 set text.now }
{
    let place = SENT + station.0 as usize;
    let sent = counts[place];
    let used = counts[USED] as usize;
    let entries = counts[ENTRIES];
    let number = MessageNumber(sent);
    counts[place] = sent + 1;
    if set == 0 {
        return number;
    }
    let row = list_rows::free_row(sends, octets, used);
    let message = Message {
        initiator: station,
        number,
        carts: set,
    };
    list_rows::put_row(sends, octets, row, message, text);
    counts[USED] = row as u64 + 1;
    counts[ENTRIES] = entries + sets::count(set);
    number
}

// A send of the text to the carts of the set.
pub fn send(
    counts: &mut [u64],
    sends: &mut [u64],
    octets: &mut [u8],
    station: Station,
    set: u64,
    text: &[u8],
) -> Result<Reply, Refusal>
    requires { ListsReady (lent_lists counts.old sends.old octets.old) }
    ensures { ListsMet (lent_lists counts.old sends.old octets.old) (lent_lists counts.new sends.new octets.new) (plain_send station.0 set text.now) result }
{
    send_refusal(counts, station, set, text.len())?;
    Ok(Reply::Sent(append(counts, sends, octets, station, set, text)))
}

// The row is handed to the cart, which is crossed out, and there is one entry less. The text is at the front of the buffer. How many octets it has.
fn hand_over(
    counts: &mut [u64],
    sends: &mut [u64],
    octets: &[u8],
    row: usize,
    cart: CartNumber,
    buffer: &mut [u8; list_rows::TEXT],
) -> usize
    requires { (length counts.old ≡ count_words) × (0 < (counts_in counts.old).entries) × RowIn width sends.old row × RowIn text_room octets.now row × (cart.0 < 64) × ((rows_in sends.old octets.now row).size ≤ text_room) }
    ensures value { result ≡ (rows_in sends.old octets.now row).size }
    ensures counts_after { counts.new ≡ set counts.old 4 ((counts_in counts.old).entries - 1) }
    ensures octets_after { rows_in sends.new octets.now ≡ update (rows_in sends.old octets.now) row (taken_by (rows_in sends.old octets.now row) cart.0) }
    ensures sends_len_unchanged { length sends.new ≡ length sends.old }
    ensures buffer_after { buffer.new ≡ (rows_in sends.old octets.now row).text ++ drop (rows_in sends.old octets.now row).size buffer.old }
{
    let size = list_rows::size_at(sends, row);
    list_rows::copy_text(octets, row, size, buffer);
    list_rows::cross_out(sends, row, cart);
    counts[ENTRIES] -= 1;
    size
}

// "takes the head and answers its number and text": from the list of the station and the cart. The text is at the front of the buffer, and the
// rest of the buffer is left.
pub fn take(
    counts: &mut [u64],
    sends: &mut [u64],
    octets: &[u8],
    station: Station,
    cart: CartNumber,
    buffer: &mut [u8; list_rows::TEXT],
) -> Result<Reply, Refusal>
    requires { ListsReady (lent_lists counts.old sends.old octets.now) }
    ensures { ListsHanded (lent_lists counts.old sends.old octets.now) (lent_lists counts.new sends.new octets.now) station.0 cart.0 result buffer.old buffer.new }
{
    take_refusal(counts, station, cart)?;
    let used = counts[USED] as usize;
    let Some(row) = list_rows::find_row(sends, used, station, cart) else {
        return Err(Refusal::EmptyList);
    };
    let number = list_rows::message_at(sends, row).number;
    let size = hand_over(counts, sends, octets, row, cart, buffer);
    Ok(Reply::Took(number, size))
}
