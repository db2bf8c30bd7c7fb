// START, AND SEND (of the wired module) over the lent parts.
#![tactic(auto)]

ghost use Rattle.std.specs.Prelude.{◌≡◌, true, ◌+◌, ◌*◌, ◌<◌, ◌≤◌, length};
ghost use Rattle.lines.specs.Form.{form, sized};
ghost use Rattle.lines.specs.Lines.{used};
ghost use Rattle.lines.specs.Words.{capacity};
ghost use Rattle.protocol.specs.CartSets.{set_of};
ghost use Rattle.messages.specs.View.{HasRoom, rooms_in, with_message};
ghost use Rattle.messages.specs.Texts.{HasText};
ghost use Rattle.reports.specs.Effects.{putting};
ghost use Rattle.stations.specs.View.{rooms, HasHead, HasStation, stations_in, Leaves};
ghost use Rattle.wired_send.specs.Rooms.{first_free};
ghost use Rattle.wired_send.specs.Copies.{without_copy, without_copies};
ghost use Rattle.wired_send.specs.Begun.{Begun};
ghost use Rattle.wired_send.specs.Sent.{CanStore, Kept, KeptLong, Announced};

use ids::{MessageNumber, Station};
use products::Bounds;
use reports::Effect;

// "Its room is then used again": the first of the rooms whose message no station waits for any more; none where every room is taken.
pub fn free_room(messages: &[u64], held: usize) -> Option<usize>
    requires { (held * 7 ≤ length messages.now) × (held ≤ 32) }
    ensures { result ≡ first_free held messages.now }
{
    for m in 0..held {
        if messages::waiting_of(messages, m) == 0 {
            return Some(m);
        }
    }
    None
}

// One station has no copy of the message in room m, no ack list and no entry for it.
fn clear_copy(stations: &mut [u64], m: usize, station: Station)
    requires { HasStation stations.old station.0 × (m < rooms) }
    ensures { Leaves stations.old stations.new (without_copy (stations_in stations.old) m station.0) }
{
    stations::put_room(stations, m, station, 0, 0);
    stations::put_queue(stations, m, station, 0);
}

// No station that the table has a row for has a copy of the message in room m yet, an ack list or an entry for it.
fn clear_copies(stations: &mut [u64], rows: u64, m: usize)
    requires { (length stations.old ≡ 116 + rows * 116) × (rows ≤ 16) × (m < rooms) }
    ensures { Leaves stations.old stations.new (without_copies (stations_in stations.old) m) }
{
    for t in 0..rows {
        clear_copy(stations, m, Station(t));
    }
}

// "it writes all the rest afresh": a floor of n stations and k carts, with nothing on it but its mark. Texts have no length, so none is there.
pub fn start_floor(
    stations: &mut [u64],
    carts: &mut [u64],
    messages: &mut [u64],
    lines: &mut [u64],
    n: u64,
    k: u64,
)
    requires { HasHead stations.old × (sized lines.old ≡ true) }
    ensures { Begun stations.old stations.new carts.old carts.new messages.old messages.new lines.old lines.new n k }
{
    stations::clear_stations(stations);
    stations::put_head(stations, stations::STARTED, n, k);
    carts::clear_carts(carts);
    messages::clear_messages(messages);
    lines::clear(lines);
}

// A message that is sent: the room that it gets, its initiator, its number and the set.
#[derive(Clone, Copy)]
pub struct NewMessage {
    pub room: usize,
    pub initiator: Station,
    pub number: MessageNumber,
    pub set: u64,
}

// The message's row, in its room: "The initiator keeps the set as sent"; nobody has acknowledged it, and none of n stations has handled its delete. It
// says how many octets the text has, and where in the store they lie.
fn put_row(messages: &mut [u64], n: u64, message: NewMessage, octets: usize, place: usize)
    requires { HasRoom messages.old message.room × (n ≤ 16) }
    ensures messages_after { rooms_in messages.new ≡ with_message (rooms_in messages.old) message.room message.initiator.0 message.number.0 message.set (set_of n (λ _. true)) octets place }
    ensures messages_len_unchanged { length messages.new ≡ length messages.old }
{
    messages::put_message(
        messages,
        message.room,
        message.initiator,
        message.number,
        message.set,
        sets::all_below(n),
        octets as u64,
        place as u64,
    );
}

// The message and its text, into its room. A text in its room's part has no place in the store.
fn keep_message(messages: &mut [u64], texts: &mut [u8], n: u64, message: NewMessage, text: &[u8])
    requires { HasRoom messages.old message.room × HasText texts.old message.room × (length text.now ≤ 32) × (n ≤ 16) }
    ensures { Kept messages.old messages.new texts.old texts.new message.room message.initiator.0 n message.number.0 message.set text.now }
{
    put_row(messages, n, message, text.len(), 0);
    messages::put_text(texts, message.room, text);
}

// The same of a long text: "Long texts lie in one store". The rows of the held messages say which of its octets are free, so room is made before this
// message has its row.
fn keep_long_message(
    messages: &mut [u64],
    store: &mut [u8],
    held: usize,
    n: u64,
    message: NewMessage,
    text: &[u8],
)
    requires { HasRoom messages.old message.room × (n ≤ 16) × CanStore held messages.old store.old text.now }
    ensures { KeptLong held messages.old messages.new store.old store.new message.room message.initiator.0 n message.number.0 message.set text.now }
{
    let octets = text.len();
    let place = store::make_room(messages, store, held, octets);
    store::put_text(store, place, text);
    put_row(messages, n, message, octets, place);
}

// "the message takes the station's number; a multicast goes on the line to every station", on a floor of n stations in a table that has rows for as
// many or more. No station has a copy of it yet. A record goes to each station.
fn announce(
    stations: &mut [u64],
    lines: &mut [u64],
    rows: u64,
    n: u64,
    message: NewMessage,
) -> Effect
    requires stations_len { (length stations.old ≡ 116 + rows * 116) × (rows ≤ 16) × HasStation stations.old message.initiator.0 }
    requires room_lt_rooms { (message.room < rooms) × (message.initiator.0 < 16) × (n ≤ 16) × (message.number.0 < 4294967296) }
    requires lines_value { (form lines.old ≡ true) × (used lines.old + n ≤ capacity lines.old) }
    ensures announced { Announced stations.old stations.new lines.old lines.new message.room message.initiator.0 n message.number.0 }
    ensures value { result ≡ putting n }
{
    let m = message.room;
    let s = message.initiator;
    let number = message.number;
    clear_copies(stations, rows, m);
    stations::put_sent(stations, s, number.next().0);
    wired_lines::push_to_every(lines, s, n, view::multicast(m, number));
    reports::putting(n)
}

// "Send (station, set, text)", of a text that its room has a part for.
pub fn on_send(
    stations: &mut [u64],
    messages: &mut [u64],
    lines: &mut [u64],
    texts: &mut [u8],
    rows: u64,
    n: u64,
    message: NewMessage,
    text: &[u8],
) -> Effect
    requires stations_len { (length stations.old ≡ 116 + rows * 116) × (rows ≤ 16) × HasStation stations.old message.initiator.0 × HasRoom messages.old message.room × HasText texts.old message.room × (length text.now ≤ 32) }
    requires room_lt_rooms { (message.room < rooms) × (message.initiator.0 < 16) × (n ≤ 16) × (message.number.0 < 4294967296) }
    requires lines_value { (form lines.old ≡ true) × (used lines.old + n ≤ capacity lines.old) }
    ensures kept { Kept messages.old messages.new texts.old texts.new message.room message.initiator.0 n message.number.0 message.set text.now }
    ensures announced { Announced stations.old stations.new lines.old lines.new message.room message.initiator.0 n message.number.0 }
    ensures value { result ≡ putting n }
{
    keep_message(messages, texts, n, message, text);
    announce(stations, lines, rows, n, message)
}

// "Kind 9 is a send whose text has 33 to 512 octets": the same step, with the text in the store. Its rows and rooms are those of the product.
// It stays beside `on_send`: what is lent for the text, and what is asked and promised of that, differs in each clause; what they share is in `announce`.
pub fn on_send_long(
    stations: &mut [u64],
    messages: &mut [u64],
    lines: &mut [u64],
    store: &mut [u8],
    bounds: Bounds,
    n: u64,
    message: NewMessage,
    text: &[u8],
) -> Effect
    requires stations_len { (length stations.old ≡ 116 + bounds.stations * 116) × (bounds.stations ≤ 16) × HasStation stations.old message.initiator.0 × HasRoom messages.old message.room × CanStore bounds.held messages.old store.old text.now }
    requires room_lt_rooms { (message.room < rooms) × (message.initiator.0 < 16) × (n ≤ 16) × (message.number.0 < 4294967296) }
    requires lines_value { (form lines.old ≡ true) × (used lines.old + n ≤ capacity lines.old) }
    ensures kept_long { KeptLong bounds.held messages.old messages.new store.old store.new message.room message.initiator.0 n message.number.0 message.set text.now }
    ensures announced { Announced stations.old stations.new lines.old lines.new message.room message.initiator.0 n message.number.0 }
    ensures value { result ≡ putting n }
{
    keep_long_message(messages, store, bounds.held, n, message, text);
    announce(stations, lines, bounds.stations, n, message)
}
