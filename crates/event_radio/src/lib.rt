// WHAT A CART RECEIVES on a floor that events can go on with: a radio step. It is refused first, "Checks run down the table", and then is its
// step of the wireless module.
#![tactic(auto)]

ghost use Rattle.std.specs.Prelude.{◌≡◌, ℕ, ◌*◌, ◌≤◌, ◌<◌, length, Some, Option, IfOk};
ghost use Rattle.protocol.specs.Events.{radio};
ghost use Rattle.stations.specs.View.{HasHead, HasStation, head_in};
ghost use Rattle.carts.specs.Words.{HasRow};
ghost use Rattle.messages.specs.View.{HasRoom};
ghost use Rattle.view.specs.View.{lent};
ghost use Rattle.queue.specs.Rooms.{room_in};
ghost use Rattle.refusals.specs.Numbers.{refusal_in};
ghost use Rattle.event_answers.specs.Met.{ReadyBySome, MetByEach};
ghost use Rattle.event_answers.specs.Delivered.{DeliveredByEach};
ghost use Rattle.event_radio.specs.Checks.{not_at, not_steady, not_here, not_served};
ghost use Rattle.event_radio.specs.Handed.{handed_in, Lies};

use carts::Place;
use event_answers::{Accepted, Answer, Outcome};
use ids::{CartNumber, Station};
use refusals::Refusal;

// A message that was handed over: what the step answers, and the message's room. The text stays where it lies, in that room's part of the lent octets
// or in the store; `radio_into` copies it, and a printed line is made from it there.
#[derive(Clone, Copy)]
pub struct Handed {
    pub accepted: Accepted,
    pub room: usize,
}

// 16: "cart is not at this station (leaving counts as not at)".
fn check_at(carts: &[u64], station: Station, cart: CartNumber) -> Result<(), Refusal>
    requires { HasRow carts.now cart.0 }
    ensures { refusal_in result ≡ not_at carts.now station.0 cart.0 }
{
    let place = carts::place_of(carts, cart);
    match place {
        Place::At(here) => {
            if here == station {
                Ok(())
            } else {
                Err(Refusal::NotAtStation)
            }
        }
        Place::Leaving(_, _) => Err(Refusal::NotAtStation),
        _ => Err(Refusal::NotAtStation),
    }
}

// 25: "not steady".
fn check_steady(carts: &[u64], cart: CartNumber) -> Result<(), Refusal>
    requires { HasRow carts.now cart.0 }
    ensures { refusal_in result ≡ not_steady carts.now cart.0 }
{
    if !carts::is_steady(carts, cart) {
        return Err(Refusal::Unsteady);
    }
    Ok(())
}

// 8, 9, 16, and "25 not steady, after 16 and before 17".
fn check_here(
    stations: &[u64],
    carts: &[u64],
    station: Station,
    cart: CartNumber,
) -> Result<(), Refusal>
    requires { HasHead stations.now × ((head_in stations.now).carts * 19 ≤ length carts.now) }
    ensures { refusal_in result ≡ not_here stations.now carts.now station.0 cart.0 }
{
    if stations::station_count(stations) <= station.0 {
        return Err(Refusal::NoSuchStation);
    }
    if stations::cart_count(stations) <= cart.0 {
        return Err(Refusal::NoSuchCart);
    }
    check_at(carts, station, cart)?;
    check_steady(carts, cart)
}

// 17 and 21, of the queue's head: "queue empty, or its head entry lacks the cart", "lent text buffer shorter than the text". Answers the head's room.
fn check_served(
    stations: &[u64],
    messages: &[u64],
    station: Station,
    cart: CartNumber,
    buffer: usize,
    head: Option<usize>,
) -> Result<usize, Refusal>
    requires { HasStation stations.now station.0 × ((m : ℕ) → head ≡ Some m → HasRoom messages.now m × (m < 32)) × (cart.0 < 64) }
    ensures refusal { refusal_in result ≡ not_served stations.now messages.now station.0 cart.0 buffer (room_in head) }
    ensures room { IfOk result (λ m. head ≡ Some m) }
{
    let Some(m) = head else {
        return Err(Refusal::NotAtHead);
    };
    let queued = stations::queue_of(stations, m, station);
    if !sets::has(queued, cart.0) {
        return Err(Refusal::NotAtHead);
    }
    if buffer < messages::length_of(messages, m) as usize {
        return Err(Refusal::ShortBuffer);
    }
    Ok(m)
}

// "Radio (station, cart)", with a lent buffer of so many octets: "the head message of the queue is handed to the cart".
pub fn radio(
    stations: &mut [u64],
    carts: &mut [u64],
    messages: &[u64],
    lines: &mut [u64],
    texts: &[u8],
    store: &[u8],
    station: Station,
    cart: CartNumber,
    buffer: usize,
) -> Result<Handed, Refusal>
    requires { ReadyBySome (λ P. lent P stations.old carts.old messages.now lines.old texts.now store.now) }
    ensures met_by_each { MetByEach (λ P. lent P stations.old carts.old messages.now lines.old texts.now store.now) (λ P. lent P stations.new carts.new messages.now lines.new texts.now store.now) (radio station.0 cart.0 buffer) (handed_in messages.now texts.now store.now result) }
    ensures lies { IfOk result (λ handed. Lies messages.now texts.now store.now buffer handed) }
{
    if !stations::is_started(stations) {
        return Err(Refusal::NotReady);
    }
    check_here(stations, carts, station, cart)?;
    let head = queue::head(stations, messages, station);
    let m = check_served(stations, messages, station, cart, buffer, head)?;
    let size = messages::length_of(messages, m) as usize;
    let initiator = messages::initiator_of(messages, m);
    let n = messages::number_of(messages, m);
    let effect = wireless::hand_over(
        stations, carts, messages, lines, m, initiator, n, station, cart,
    );
    let accepted = Accepted {
        outcome: Outcome::Received(initiator, n, size),
        effect,
    };
    Ok(Handed { accepted, room: m })
}

// "Radio (station, cart)", with a lent buffer: "writes the text at the front of the lent buffer and leaves the rest"; a refusal "changes no octet
// of a lent text buffer".
pub fn radio_into(
    stations: &mut [u64],
    carts: &mut [u64],
    messages: &[u64],
    lines: &mut [u64],
    texts: &[u8],
    store: &[u8],
    station: Station,
    cart: CartNumber,
    buffer: &mut [u8],
) -> Answer
    requires { ReadyBySome (λ P. lent P stations.old carts.old messages.now lines.old texts.now store.now) }
    ensures { DeliveredByEach (λ P. lent P stations.old carts.old messages.now lines.old texts.now store.now) (λ P. lent P stations.new carts.new messages.now lines.new texts.now store.now) station.0 cart.0 result buffer.old buffer.new }
{
    let size = buffer.len();
    let handed = radio(
        stations, carts, messages, lines, texts, store, station, cart, size,
    )?;
    store::copy_text(messages, texts, store, handed.room, buffer);
    Ok(handed.accepted)
}
