// LISTS KEPT BY HAND, FOR ANY CALLER: the form test, and a start, a send and a take that ask nothing of their caller. Whatever is lent and
// whatever numbers are given, each has an answer: lists "not started or against their own written form rule" are refused with 5.
#![tactic(auto)]

ghost use Rattle.std.specs.Prelude.{◌≡◌, List, ℕ, ◌*◌, ◌≤◌, length, get_or};
ghost use Rattle.protocol.specs.Floor.{limits};
ghost use Rattle.protocol.specs.Claims.{test, True};
ghost use Rattle.protocol.specs.PlainLists.{plain_start, plain_send, plain_passes};
ghost use Rattle.rows.specs.Rows.{RowIn};
ghost use Rattle.list_rows.specs.Rows.{width, most_rows, rows_in, row_fits};
ghost use Rattle.lists.specs.View.{lent_lists, count_words, counts_in, lists_in};
ghost use Rattle.lists.specs.Calls.{ListsMet, ListsHanded};
ghost use Rattle.tested_lists.specs.Form.{sent_rule, counts_rule, rows_rule};

use ids::{CartNumber, Station};
use lists::Reply;
use refusals::Refusal;

// A count of sends is at most one more than the last number.
const MOST_SENT: u64 = 4294967295;

// Are the counts of the first n stations' sends in range?
fn sent_ok(counts: &[u64], n: u64) -> bool
    requires { (length counts.now ≡ count_words) × (n ≤ 16) }
    ensures { result ≡ test (sent_rule (counts_in counts.now) n) }
{
    for s in 0..n {
        let at = lists::SENT + s as usize;
        if MOST_SENT < counts[at] {
            return false;
        }
    }
    true
}

// The clauses over the counts.
fn counts_ok(counts: &[u64]) -> bool
    requires { length counts.now ≡ count_words }
    ensures { result ≡ test (counts_rule (counts_in counts.now)) }
{
    if counts[lists::MARK] != lists::STARTED {
        return false;
    }
    let n = counts[lists::STATIONS];
    if lists::wrong_size(n, counts[lists::CARTS]) {
        return false;
    }
    let used = counts[lists::USED] as usize;
    if list_rows::ROWS < used {
        return false;
    }
    if lists::MOST_ENTRIES < counts[lists::ENTRIES] {
        return false;
    }
    sent_ok(counts, n)
}

// Is a row such as a send leaves it? Of each station, `low` has one more than the last number in the rows before.
fn row_ok(counts: &[u64], sends: &[u64], row: usize, low: &[u64; 16]) -> bool
    requires { (length counts.now ≡ count_words) × ((counts_in counts.now).stations ≤ 16) × ((counts_in counts.now).carts ≤ 64) × RowIn width sends.now row }
    ensures { (octets : List ℕ) → result ≡ test (row_fits (λ s. get_or low.now s 0) (counts_in counts.now).stations (counts_in counts.now).carts (counts_in counts.now).sent (rows_in sends.now octets row)) }
{
    let message = list_rows::message_at(sends, row);
    if counts[lists::STATIONS] <= message.initiator.0 {
        return false;
    }
    let s = message.initiator.0 as usize;
    if message.number.0 < low[s] {
        return false;
    }
    let at = lists::SENT + s;
    if counts[at] <= message.number.0 {
        return false;
    }
    if sets::all_below(counts[lists::CARTS]) < message.carts {
        return false;
    }
    list_rows::size_at(sends, row) <= list_rows::TEXT
}

// The clauses over the rows, in one pass.
fn rows_ok(counts: &[u64], sends: &[u64]) -> bool
    requires { (length counts.now ≡ count_words) × (length sends.now ≡ most_rows * width) × True (counts_rule (counts_in counts.now)) }
    ensures { (octets : List ℕ) → result ≡ test (rows_rule (counts_in counts.now) (rows_in sends.now octets)) }
{
    let used = counts[lists::USED] as usize;
    let mut low = [0u64; 16];
    let mut entries: u64 = 0;
    for row in 0..used {
        if !row_ok(counts, sends, row, &low) {
            return false;
        }
        let message = list_rows::message_at(sends, row);
        let s = message.initiator.0 as usize;
        low[s] = message.number.0 + 1;
        entries += sets::count(message.carts);
    }
    entries == counts[lists::ENTRIES]
}

// Do the lists pass "their own written form rule"?
pub fn passes(counts: &[u64], sends: &[u64], octets: &[u8]) -> bool
    ensures { result ≡ plain_passes limits (lists_in (lent_lists counts.now sends.now octets.now)) }
{
    if !lists::lengths_ok(counts, sends, octets) {
        return false;
    }
    if !counts_ok(counts) {
        return false;
    }
    rows_ok(counts, sends)
}

// "A start sets them up empty, checked as the floor's".
pub fn start(
    counts: &mut [u64],
    sends: &[u64],
    octets: &[u8],
    n: u64,
    k: u64,
) -> Result<Reply, Refusal>
    ensures { ListsMet (lent_lists counts.old sends.now octets.now) (lent_lists counts.new sends.now octets.now) (plain_start n k) result }
{
    lists::start(counts, sends, octets, n, k)
}

// A send of the text to the carts of the set. A text that is too long is met before anything of the lists.
pub fn send(
    counts: &mut [u64],
    sends: &mut [u64],
    octets: &mut [u8],
    station: Station,
    set: u64,
    text: &[u8],
) -> Result<Reply, Refusal>
    ensures { ListsMet (lent_lists counts.old sends.old octets.old) (lent_lists counts.new sends.new octets.new) (plain_send station.0 set text.now) result }
{
    if list_rows::TEXT < text.len() {
        return Err(Refusal::WrongLength);
    }
    if !passes(counts, sends, octets) {
        return Err(Refusal::NotReady);
    }
    lists::send(counts, sends, octets, station, set, text)
}

// A take from the list of the station and the cart, into the buffer.
pub fn take(
    counts: &mut [u64],
    sends: &mut [u64],
    octets: &[u8],
    station: Station,
    cart: CartNumber,
    buffer: &mut [u8; list_rows::TEXT],
) -> Result<Reply, Refusal>
    ensures { ListsHanded (lent_lists counts.old sends.old octets.now) (lent_lists counts.new sends.new octets.now) station.0 cart.0 result buffer.old buffer.new }
{
    if !passes(counts, sends, octets) {
        return Err(Refusal::NotReady);
    }
    lists::take(counts, sends, octets, station, cart, buffer)
}
