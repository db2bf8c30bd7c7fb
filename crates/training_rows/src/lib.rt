// THE CALLS TO THE LISTS, in rows: the training bench "feeds both so from one standard input", and between the floor and the lists stands a table with
// a row for each frame: the call that the frame makes, if it makes one.
#![tactic(auto)]

ghost use Rattle.std.specs.Prelude.{◌≡◌, ℕ, length};
ghost use Rattle.protocol.specs.Folds.{update};
ghost use Rattle.rows.specs.Rows.{RowIn};
ghost use Rattle.training_rows.specs.Calls.{width, call_of, words_of, calls_in};

use ids::{CartNumber, Station};

// The call that a frame makes, if it makes one.
#[derive(Clone, Copy, Debug, PartialEq, Eq)]
pub enum Call {
    // How many stations, and how many carts.
    Start(u64, u64),
    // The station, the carts, and the text: where it begins in the input, and how many octets it has.
    Send(Station, u64, usize, usize),
    // The initiator, and the cart.
    Take(Station, CartNumber),
}

// A row's words: the kind of the call, two numbers, and where its text is and how long.
pub const WIDTH: usize = 5;

const KIND: usize = 0;

const FIRST: usize = 1;

const SECOND: usize = 2;

const FROM: usize = 3;

const SIZE: usize = 4;

// The kinds; of no call it is 0. They are numbers, since they are words of a table; before and behind it stands `Option<Call>`.
const NOTHING: u64 = 0;

const START: u64 = 1;

const SEND: u64 = 2;

const TAKE: u64 = 3;

// The words of a row, as they are read and written.
#[derive(Clone, Copy)]
struct Words {
    kind: u64,
    first: u64,
    second: u64,
    from: u64,
    size: u64,
}

// The words that say a call, or none.
fn words_of(call: Option<Call>) -> Words
    ensures { result ≡ words_of call }
{
    match call {
        None => Words {
            kind: NOTHING,
            first: 0,
            second: 0,
            from: 0,
            size: 0,
        },
        Some(Call::Start(n, k)) => Words {
            kind: START,
            first: n,
            second: k,
            from: 0,
            size: 0,
        },
        Some(Call::Send(station, set, from, size)) => Words {
            kind: SEND,
            first: station.0,
            second: set,
            from: from as u64,
            size: size as u64,
        },
        Some(Call::Take(station, cart)) => Words {
            kind: TAKE,
            first: station.0,
            second: cart.0,
            from: 0,
            size: 0,
        },
    }
}

// The call that words say, if they say one.
fn call_of(w: Words) -> Option<Call>
    ensures { result ≡ call_of w }
{
    match w.kind {
        START => Some(Call::Start(w.first, w.second)),
        SEND => Some(Call::Send(Station(w.first), w.second, w.from as usize, w.size as usize)),
        TAKE => Some(Call::Take(Station(w.first), CartNumber(w.second))),
        _ => None,
    }
}

// The call in a row, if there is one.
pub fn call_at(calls: &[u64], row: usize) -> Option<Call>
    requires { RowIn width calls.now row }
    ensures { result ≡ calls_in calls.now row }
{
    call_of(Words {
        kind: rows::word_at(calls, WIDTH, row, KIND),
        first: rows::word_at(calls, WIDTH, row, FIRST),
        second: rows::word_at(calls, WIDTH, row, SECOND),
        from: rows::word_at(calls, WIDTH, row, FROM),
        size: rows::word_at(calls, WIDTH, row, SIZE),
    })
}

// Another call there, or none; the other rows stay.
pub fn put_call(calls: &mut [u64], row: usize, call: Option<Call>)
    requires { RowIn width calls.old row }
    ensures calls_after { calls_in calls.new ≡ update (calls_in calls.old) row call }
    ensures calls_len_unchanged { length calls.new ≡ length calls.old }
{
    let w = words_of(call);
    rows::put_word(calls, WIDTH, row, KIND, w.kind);
    rows::put_word(calls, WIDTH, row, FIRST, w.first);
    rows::put_word(calls, WIDTH, row, SECOND, w.second);
    rows::put_word(calls, WIDTH, row, FROM, w.from);
    rows::put_word(calls, WIDTH, row, SIZE, w.size);
}
