// THE READING CALL on a floor that passes the form rule: "An extra reading call, by initiator and number, lends back that text's own part of the short table
// or of the long store, good until the next event". It changes nothing and is no event.
#![tactic(auto)]

ghost use Rattle.std.specs.Prelude.{◌≡◌, true, List, [], ℕ, ◌+◌, ◌*◌, ◌≤◌, ◌<◌, length};
ghost use Rattle.protocol.specs.Folds.{first};
ghost use Rattle.protocol.specs.Floor.{Product, limits_of, is_message};
ghost use Rattle.protocol.specs.Form.{passes_form};
ghost use Rattle.stations.specs.View.{HasHead};
ghost use Rattle.messages.specs.View.{HasRoom, rooms_in};
ghost use Rattle.view.specs.View.{lent, floor_in};
ghost use Rattle.queue.specs.Rooms.{room_code};
ghost use Rattle.form_tables.specs.Tables.{tables};
ghost use Rattle.reading.specs.Parts.{part_of, part_in, read_in, lender, IsPart};

use ids::{MessageNumber, Station};
use refusals::Refusal;

// A part of the lent octets: of the store, or else of the short table; from which octet on, and how many. A bool says of which, as it is handed on to C.
#[derive(Clone, Copy, Debug, PartialEq, Eq)]
pub struct Part {
    pub stored: bool,
    pub at: usize,
    pub octets: usize,
}

// A refusal has no part: "refused, it lends back the empty part at the front of the short table".
pub const FRONT: Part = Part {
    stored: false,
    at: 0,
    octets: 0,
};

// The part that is lent back, of a refusal too.
pub fn part_or_front(found: Result<Part, Refusal>) -> Part
    ensures { result ≡ part_in found }
{
    match found {
        Ok(part) => part,
        Err(_) => FRONT,
    }
}

// "that text's own part of the short table or of the long store", of the held message in room m: its length says which.
pub fn part_of(messages: &[u64], m: usize) -> Part
    requires { HasRoom messages.now m × (m < 32) }
    ensures { result ≡ part_of (rooms_in messages.now) m }
{
    let octets = messages::length_of(messages, m) as usize;
    if octets <= products::TEXT {
        return Part {
            stored: false,
            at: m * products::TEXT,
            octets,
        };
    }
    Part {
        stored: true,
        at: messages::offset_of(messages, m) as usize,
        octets,
    }
}

// The room of the held message of that initiator and number, by one pass over the rooms; none, where it is not held.
fn room_of(
    messages: &[u64],
    held: usize,
    initiator: Station,
    number: MessageNumber,
) -> Option<usize>
    requires { (held * 7 ≤ length messages.now) × (held ≤ 32) }
    ensures { result ≡ room_code (first held (is_message (tables [] [] messages.now) initiator.0 number.0)) }
{
    for m in 0..held {
        if form_tables::is_message(messages, m, initiator.0, number.0) {
            return Some(m);
        }
    }
    None
}

// What the call comes to on a floor that passes: "8, then 28 message not held", or the part of the message's text.
pub fn read(
    stations: &[u64],
    messages: &[u64],
    held: usize,
    initiator: Station,
    number: MessageNumber,
) -> Result<Part, Refusal>
    requires { HasHead stations.now × (held * 7 ≤ length messages.now) × (held ≤ 32) }
    ensures { (P : Product) (C W T O : List ℕ) → P.held ≡ held → passes_form (limits_of P) (floor_in (lent P stations.now C messages.now W T O)) ≡ true → result ≡ read_in (lent P stations.now C messages.now W T O) initiator.0 number.0 }
{
    if stations::station_count(stations) <= initiator.0 {
        return Err(Refusal::NoSuchStation);
    }
    let Some(m) = room_of(messages, held, initiator, number) else {
        return Err(Refusal::NotHeld);
    };
    Ok(part_of(messages, m))
}

// "lends back that text's own part": a part of one of the two lent slices.
pub fn lend<'a>(texts: &'a [u8], store: &'a [u8], part: Part) -> &'a [u8]
    requires { part.at + part.octets ≤ length (lender part texts store).now }
    ensures { IsPart part texts.entry store.entry result }
{
    let lender = if part.stored { store } else { texts };
    &lender[part.at..part.at + part.octets]
}
