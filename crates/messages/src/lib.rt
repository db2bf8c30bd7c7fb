// The held messages: a lent table with a row for each room, and the lent octets of their short texts. "Its room is then used again."
#![tactic(auto)]

ghost use Rattle.std.specs.Prelude.{◌≡◌, ℕ, ◌≤◌, length, get_or};
ghost use Rattle.messages.specs.View.{HasRoom, rooms_in, no_rooms, with_acked, with_waiting, with_offset, with_message};
ghost use Rattle.messages.specs.Texts.{longest, HasText, text_in};

use ids::{MessageNumber, Station};

// A row of the table has this many words, in this order.
const WIDTH: usize = 7;

const INITIATOR: usize = 0;

const NUMBER: usize = 1;

const NAMED: usize = 2;

const ACKED: usize = 3;

const WAITING: usize = 4;

const LENGTH: usize = 5;

const OFFSET: usize = 6;

// The initiator of the message in room m.
pub fn initiator_of(messages: &[u64], m: usize) -> Station
    requires { HasRoom messages.now m }
    ensures { result.0 ≡ (rooms_in messages.now).initiator m }
{
    Station(rows::word_at(messages, WIDTH, m, INITIATOR))
}

// Its number.
pub fn number_of(messages: &[u64], m: usize) -> MessageNumber
    requires { HasRoom messages.now m }
    ensures { result.0 ≡ (rooms_in messages.now).number m }
{
    MessageNumber(rows::word_at(messages, WIDTH, m, NUMBER))
}

// The carts that it names: "the set as sent".
pub fn named_of(messages: &[u64], m: usize) -> u64
    requires { HasRoom messages.now m }
    ensures { result ≡ (rooms_in messages.now).named m }
{
    rows::word_at(messages, WIDTH, m, NAMED)
}

// The carts that the initiator knows to have it.
pub fn acked_of(messages: &[u64], m: usize) -> u64
    requires { HasRoom messages.now m }
    ensures { result ≡ (rooms_in messages.now).acked m }
{
    rows::word_at(messages, WIDTH, m, ACKED)
}

// The stations that have not handled its delete.
pub fn waiting_of(messages: &[u64], m: usize) -> u64
    requires { HasRoom messages.now m }
    ensures { result ≡ (rooms_in messages.now).waiting m }
{
    rows::word_at(messages, WIDTH, m, WAITING)
}

// How many octets its text has.
pub fn length_of(messages: &[u64], m: usize) -> u64
    requires { HasRoom messages.now m }
    ensures { result ≡ (rooms_in messages.now).length m }
{
    rows::word_at(messages, WIDTH, m, LENGTH)
}

// Where its text begins in the store, if it is long.
pub fn offset_of(messages: &[u64], m: usize) -> u64
    requires { HasRoom messages.now m }
    ensures { result ≡ (rooms_in messages.now).offset m }
{
    rows::word_at(messages, WIDTH, m, OFFSET)
}

// The initiator knows other carts to have it.
pub fn put_acked(messages: &mut [u64], m: usize, carts: u64)
    requires { HasRoom messages.old m }
    ensures messages_after { rooms_in messages.new ≡ with_acked (rooms_in messages.old) m carts }
    ensures messages_len_unchanged { length messages.new ≡ length messages.old }
{
    rows::put_word(messages, WIDTH, m, ACKED, carts);
}

// Other stations have yet to handle its delete.
pub fn put_waiting(messages: &mut [u64], m: usize, stations: u64)
    requires { HasRoom messages.old m }
    ensures messages_after { rooms_in messages.new ≡ with_waiting (rooms_in messages.old) m stations }
    ensures messages_len_unchanged { length messages.new ≡ length messages.old }
{
    rows::put_word(messages, WIDTH, m, WAITING, stations);
}

// Its text begins at another place in the store.
pub fn put_offset(messages: &mut [u64], m: usize, offset: u64)
    requires { HasRoom messages.old m }
    ensures messages_after { rooms_in messages.new ≡ with_offset (rooms_in messages.old) m offset }
    ensures messages_len_unchanged { length messages.new ≡ length messages.old }
{
    rows::put_word(messages, WIDTH, m, OFFSET, offset);
}

// A new message is in room m, and no cart is known to have it.
// Its words are parameters: one caller hands them on, from places of its own, and a struct would be made only to be taken apart here.
pub fn put_message(
    messages: &mut [u64],
    m: usize,
    initiator: Station,
    number: MessageNumber,
    named: u64,
    waiting: u64,
    octets: u64,
    offset: u64,
)
    requires { HasRoom messages.old m }
    ensures messages_after { rooms_in messages.new ≡ with_message (rooms_in messages.old) m initiator.0 number.0 named waiting octets offset }
    ensures messages_len_unchanged { length messages.new ≡ length messages.old }
{
    rows::put_word(messages, WIDTH, m, INITIATOR, initiator.0);
    rows::put_word(messages, WIDTH, m, NUMBER, number.0);
    rows::put_word(messages, WIDTH, m, NAMED, named);
    rows::put_word(messages, WIDTH, m, ACKED, 0);
    rows::put_word(messages, WIDTH, m, WAITING, waiting);
    rows::put_word(messages, WIDTH, m, LENGTH, octets);
    rows::put_word(messages, WIDTH, m, OFFSET, offset);
}

// "it writes all the rest afresh": every word is 0, so nothing is in any room.
pub fn clear_messages(messages: &mut [u64])
    ensures by_index { (k : ℕ) → get_or messages.new k 0 ≡ 0 }
    ensures messages_after { rooms_in messages.new ≡ no_rooms }
    ensures messages_len_unchanged { length messages.new ≡ length messages.old }
{
    rows::clear(messages);
}

// The text of a new message, into room m's part. The texts of the other rooms are what they were.
pub fn put_text(texts: &mut [u8], m: usize, text: &[u8])
    requires { HasText texts.old m × (length text.now ≤ longest) }
    ensures m_after { text_in texts.new (length text.now) m ≡ text.now }
    ensures by_index { (k n : ℕ) → (k ≡ m → ⊥) → n ≤ longest → text_in texts.new n k ≡ text_in texts.old n k }
    ensures texts_len_unchanged { length texts.new ≡ length texts.old }
{
    let at = m * products::TEXT;
    let end = at + products::TEXT;
    octet_parts::copy(text, &mut texts[at..end]);
}
