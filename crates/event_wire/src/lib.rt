// WHAT THE WIRES DO on a floor that events can go on with: "Wire (from, to): the head record of that line is handled at to". It is refused
// first, "Checks run down the table", and then is the step of the record's kind.
#![tactic(auto)]

ghost use Rattle.std.specs.Prelude.{◌≡◌, true, false, List, [], ℕ, ◌≤◌};
ghost use Rattle.protocol.specs.Floor.{Product, limits_of};
ghost use Rattle.protocol.specs.Events.{wire};
ghost use Rattle.protocol.specs.Refusals.{refusal_if};
ghost use Rattle.stations.specs.View.{HasHead, head_in};
ghost use Rattle.lines.specs.Form.{form};
ghost use Rattle.view.specs.View.{lent, floor_in};
ghost use Rattle.refusals.specs.Numbers.{refusal_in};
ghost use Rattle.event_answers.specs.Answers.{answer_in};
ghost use Rattle.event_answers.specs.Met.{Met, ReadyBySome, MetByEach};
ghost use Rattle.event_wire.specs.Off.{TakenOff, IsOff};

use event_answers::{Accepted, Answer, Outcome};
use ids::{CartNumber, MessageNumber, Station};
use lines::Record;
use refusals::Refusal;
use view::Kind;

// The checks of a wire event, 8 and 15.
fn check_wire(stations: &[u64], lines: &[u64], from: Station, to: Station) -> Result<(), Refusal>
    requires { HasHead stations.now × ((head_in stations.now).stations ≤ 16) × (form lines.now ≡ true) }
    ensures { (P : Product) (C M T O : List ℕ) → refusal_in result ≡ refusal_if (limits_of P) (floor_in (lent P stations.now C M lines.now T O)) false (wire from.0 to.0) }
{
    let n = stations::station_count(stations);
    if n <= from.0 {
        return Err(Refusal::NoSuchStation);
    }
    if n <= to.0 {
        return Err(Refusal::NoSuchStation);
    }
    if lines::is_empty(lines, from.0 as usize, to.0 as usize) {
        return Err(Refusal::EmptyLine);
    }
    Ok(())
}

// A record that came from one station is handled at the other, by its kind: "multicast (1)", "ack list (2)", "delete (3)", "deregister (4)",
// "register (5)". There is no other kind on a line of a floor that passes. Kinds are asked for one after the other, as in a frame: a table of
// jumps has to be read before it is known that the guess was wrong. The first three are of a message, which has a number; the last two of a
// cart, and a register carries the cart's row of next numbers.
fn handle(
    stations: &mut [u64],
    carts: &mut [u64],
    messages: &mut [u64],
    lines: &mut [u64],
    said: Record,
    from: Station,
    to: Station,
) -> Answer
    requires { IsOff stations.old carts.old messages.old lines.old from.0 to.0 said }
    ensures { (P : Product) (W T O : List ℕ) → TakenOff P stations.old carts.old messages.old W lines.old T O from.0 to.0 said → Met (lent P stations.old carts.old messages.old W T O) (lent P stations.new carts.new messages.new lines.new T O) (wire from.0 to.0) (answer_in result []) }
{
    let number = MessageNumber(view::number_of(said));
    if view::is_of(said, Kind::AckList) {
        let n = stations::station_count(stations);
        let effect = wired_records::on_ack_list(messages, lines, said, to, n);
        return Ok(Accepted {
            outcome: Outcome::Acknowledged(number),
            effect,
        });
    }
    if view::is_of(said, Kind::Delete) {
        let effect = wired_records::on_delete(messages, said, to);
        return Ok(Accepted {
            outcome: Outcome::Deleted(number),
            effect,
        });
    }
    if view::is_of(said, Kind::Multicast) {
        let effect = wired_records::on_multicast(stations, carts, messages, said, from, to);
        return Ok(Accepted {
            outcome: Outcome::Buffered(number),
            effect,
        });
    }
    let cart = CartNumber(view::index_of(said));
    if view::is_of(said, Kind::Deregister) {
        let effect = handoff::on_deregister(stations, carts, messages, lines, cart, to, from);
        return Ok(Accepted {
            outcome: Outcome::Deregistered(cart),
            effect,
        });
    }
    let row = lines::register_of(lines, cart.0 as usize);
    let effect = handoff::on_register(stations, carts, messages, to, cart, row);
    Ok(Accepted {
        outcome: Outcome::Registered(cart),
        effect,
    })
}

// "Wire (from, to)".
pub fn wire(
    stations: &mut [u64],
    carts: &mut [u64],
    messages: &mut [u64],
    lines: &mut [u64],
    texts: &[u8],
    store: &[u8],
    from: Station,
    to: Station,
) -> Answer
    requires { ReadyBySome (λ P. lent P stations.old carts.old messages.old lines.old texts.now store.now) }
    ensures { MetByEach (λ P. lent P stations.old carts.old messages.old lines.old texts.now store.now) (λ P. lent P stations.new carts.new messages.new lines.new texts.now store.now) (wire from.0 to.0) (answer_in result []) }
{
    if !stations::is_started(stations) {
        return Err(Refusal::NotReady);
    }
    check_wire(stations, lines, from, to)?;
    let i = from.0 as usize;
    let j = to.0 as usize;
    let said = lines::front(lines, i, j);
    lines::pop_front(lines, i, j);
    handle(stations, carts, messages, lines, said, from, to)
}
