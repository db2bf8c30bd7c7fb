// WHAT CARTS DO on a floor that events can go on with: enter, move, say whether they are steady, and go back to the factory. Each is refused first,
// "Checks run down the table", and then is its step of the hand-off module.
#![tactic(auto)]

ghost use Rattle.std.specs.Prelude.{◌≡◌, Bool, false, List, [], ℕ, ◌*◌, ◌≤◌, length, IfOk};
ghost use Rattle.protocol.specs.Floor.{Product, limits_of, at};
ghost use Rattle.protocol.specs.Events.{enter, move, flag, retire};
ghost use Rattle.protocol.specs.Refusals.{refusal_if};
ghost use Rattle.stations.specs.View.{HasHead, head_in};
ghost use Rattle.carts.specs.View.{carts_in};
ghost use Rattle.messages.specs.View.{HasRoom, rooms_in};
ghost use Rattle.queue.specs.Rooms.{room_count};
ghost use Rattle.form_tables.specs.Parts.{Collects};
ghost use Rattle.view.specs.View.{lent, floor_in};
ghost use Rattle.refusals.specs.Numbers.{refusal_in};
ghost use Rattle.event_answers.specs.Answers.{answer_in};
ghost use Rattle.event_answers.specs.Met.{ReadyBySome, MetByEach};
ghost use Rattle.event_carts.specs.Named.{named_if_held};

use carts::Place;
use event_answers::{Accepted, Answer, Outcome};
use ids::{CartNumber, Station};
use refusals::Refusal;

// The checks of an enter, 8 to 10.
fn check_enter(
    stations: &[u64],
    carts: &[u64],
    station: Station,
    cart: CartNumber,
) -> Result<(), Refusal>
    requires { HasHead stations.now × ((head_in stations.now).carts * 19 ≤ length carts.now) }
    ensures { (P : Product) (M W T O : List ℕ) → refusal_in result ≡ refusal_if (limits_of P) (floor_in (lent P stations.now carts.now M W T O)) false (enter station.0 cart.0) }
{
    if stations::station_count(stations) <= station.0 {
        return Err(Refusal::NoSuchStation);
    }
    if stations::cart_count(stations) <= cart.0 {
        return Err(Refusal::NoSuchCart);
    }
    let place = carts::place_of(carts, cart);
    match place {
        Place::Outside => Ok(()),
        _ => Err(Refusal::AlreadyEntered),
    }
}

// "Enter (station, cart)".
pub fn enter(
    stations: &mut [u64],
    carts: &mut [u64],
    messages: &[u64],
    lines: &[u64],
    texts: &[u8],
    store: &[u8],
    station: Station,
    cart: CartNumber,
) -> Answer
    requires { ReadyBySome (λ P. lent P stations.old carts.old messages.now lines.now texts.now store.now) }
    ensures { MetByEach (λ P. lent P stations.old carts.old messages.now lines.now texts.now store.now) (λ P. lent P stations.new carts.new messages.now lines.now texts.now store.now) (enter station.0 cart.0) (answer_in result []) }
{
    if !stations::is_started(stations) {
        return Err(Refusal::NotReady);
    }
    check_enter(stations, carts, station, cart)?;
    let effect = handoff::on_enter(stations, carts, messages, station, cart);
    Ok(Accepted {
        outcome: Outcome::Entered(station, cart),
        effect,
    })
}

// The checks of a move, 8, 9 and 18 to 20. Answers where the cart is.
fn check_move(
    stations: &[u64],
    carts: &[u64],
    cart: CartNumber,
    to: Station,
) -> Result<Station, Refusal>
    requires { HasHead stations.now × ((head_in stations.now).carts * 19 ≤ length carts.now) }
    ensures refusal { (P : Product) (M W T O : List ℕ) → refusal_in result ≡ refusal_if (limits_of P) (floor_in (lent P stations.now carts.now M W T O)) false (move cart.0 to.0) }
    ensures here { IfOk result (λ here. (carts_in carts.now).place cart.0 ≡ at here.0) }
{
    if stations::station_count(stations) <= to.0 {
        return Err(Refusal::NoSuchStation);
    }
    if stations::cart_count(stations) <= cart.0 {
        return Err(Refusal::NoSuchCart);
    }
    let place = carts::place_of(carts, cart);
    match place {
        Place::Outside => Err(Refusal::Outside),
        Place::Leaving(_, _) => Err(Refusal::OnItsWay),
        Place::Travelling(_, _) => Err(Refusal::OnItsWay),
        Place::At(here) => {
            if here == to {
                Err(Refusal::AlreadyThere)
            } else {
                Ok(here)
            }
        }
    }
}

// "Move (cart, to)".
pub fn move_cart(
    stations: &[u64],
    carts: &mut [u64],
    messages: &[u64],
    lines: &mut [u64],
    texts: &[u8],
    store: &[u8],
    cart: CartNumber,
    to: Station,
) -> Answer
    requires { ReadyBySome (λ P. lent P stations.now carts.old messages.now lines.old texts.now store.now) }
    ensures { MetByEach (λ P. lent P stations.now carts.old messages.now lines.old texts.now store.now) (λ P. lent P stations.now carts.new messages.now lines.new texts.now store.now) (move cart.0 to.0) (answer_in result []) }
{
    if !stations::is_started(stations) {
        return Err(Refusal::NotReady);
    }
    let old = check_move(stations, carts, cart, to)?;
    let effect = handoff::on_move(carts, lines, cart, old, to);
    Ok(Accepted {
        outcome: Outcome::Moved(cart, to),
        effect,
    })
}

// The checks of a flag, 9 and 18: "for kind 6, 18 .., after 9", where it is "not now entered". A cart on its way is told as any other.
fn check_flag(stations: &[u64], carts: &[u64], cart: CartNumber) -> Result<(), Refusal>
    requires { HasHead stations.now × ((head_in stations.now).carts * 19 ≤ length carts.now) }
    ensures { (P : Product) (M W T O : List ℕ) (steady : Bool) → refusal_in result ≡ refusal_if (limits_of P) (floor_in (lent P stations.now carts.now M W T O)) false (flag cart.0 steady) }
{
    if stations::cart_count(stations) <= cart.0 {
        return Err(Refusal::NoSuchCart);
    }
    let place = carts::place_of(carts, cart);
    match place {
        Place::Outside => Err(Refusal::Outside),
        _ => Ok(()),
    }
}

// "A cart counts as steady from its entry until told": the cart is told steady, or not.
pub fn flag_cart(
    stations: &[u64],
    carts: &mut [u64],
    messages: &[u64],
    lines: &[u64],
    texts: &[u8],
    store: &[u8],
    cart: CartNumber,
    steady: bool,
) -> Answer
    requires { ReadyBySome (λ P. lent P stations.now carts.old messages.now lines.now texts.now store.now) }
    ensures { MetByEach (λ P. lent P stations.now carts.old messages.now lines.now texts.now store.now) (λ P. lent P stations.now carts.new messages.now lines.now texts.now store.now) (flag cart.0 steady) (answer_in result []) }
{
    if !stations::is_started(stations) {
        return Err(Refusal::NotReady);
    }
    check_flag(stations, carts, cart)?;
    let effect = handoff::on_flag(carts, cart, steady);
    Ok(Accepted {
        outcome: Outcome::Flagged(cart, steady),
        effect,
    })
}

// The carts that the message in room m names, by "the set as sent"; none where the room is free, whatever its words still say.
fn named_if_held(messages: &[u64], m: usize) -> u64
    requires { HasRoom messages.now m }
    ensures { result ≡ named_if_held (rooms_in messages.now) m }
{
    if messages::waiting_of(messages, m) == 0 {
        return 0;
    }
    messages::named_of(messages, m)
}

// The carts that held messages name, by one pass over all rooms.
fn held_names(messages: &[u64]) -> u64
    ensures { Collects (named_if_held (rooms_in messages.now)) (room_count messages.now) result }
{
    let rooms = messages.len() / 7;
    let mut names: u64 = 0;
    for m in 0..rooms {
        names = sets::union(names, named_if_held(messages, m));
    }
    names
}

// The checks of a retirement, 9, "18, then 19, then 29 a held message names the cart". Answers where the cart is.
fn check_retire(
    stations: &[u64],
    carts: &[u64],
    messages: &[u64],
    cart: CartNumber,
) -> Result<Station, Refusal>
    requires { HasHead stations.now × ((head_in stations.now).carts * 19 ≤ length carts.now) × ((head_in stations.now).carts ≤ 64) }
    ensures refusal { (P : Product) (W T O : List ℕ) → room_count messages.now ≡ P.held → refusal_in result ≡ refusal_if (limits_of P) (floor_in (lent P stations.now carts.now messages.now W T O)) false (retire cart.0) }
    ensures here { IfOk result (λ here. (carts_in carts.now).place cart.0 ≡ at here.0) }
{
    if stations::cart_count(stations) <= cart.0 {
        return Err(Refusal::NoSuchCart);
    }
    let place = carts::place_of(carts, cart);
    match place {
        Place::Outside => Err(Refusal::Outside),
        Place::At(here) => {
            if sets::has(held_names(messages), cart.0) {
                Err(Refusal::StillNamed)
            } else {
                Ok(here)
            }
        }
        _ => Err(Refusal::OnItsWay),
    }
}

// The cart is retired. "It may enter again, with all next numbers 0 and steady".
pub fn retire(
    stations: &mut [u64],
    carts: &mut [u64],
    messages: &[u64],
    lines: &[u64],
    texts: &[u8],
    store: &[u8],
    cart: CartNumber,
) -> Answer
    requires { ReadyBySome (λ P. lent P stations.old carts.old messages.now lines.now texts.now store.now) }
    ensures { MetByEach (λ P. lent P stations.old carts.old messages.now lines.now texts.now store.now) (λ P. lent P stations.new carts.new messages.now lines.now texts.now store.now) (retire cart.0) (answer_in result []) }
{
    if !stations::is_started(stations) {
        return Err(Refusal::NotReady);
    }
    let here = check_retire(stations, carts, messages, cart)?;
    let effect = handoff::on_retire(stations, carts, cart, here);
    Ok(Accepted {
        outcome: Outcome::Retired(cart),
        effect,
    })
}
