// THE EVENTS BEHIND THE FORM TEST, once for every product: each tests the lent floor by its caller's limits, "Refusals 5 (form rule and lent lengths) .. use the
// caller's limits", and then calls the event's own crate. So does the reading call, which is no event. A contract holds for each product that has these
// numbers. The start, which does not ask the form rule, is `event_start`'s.
#![tactic(auto)]

ghost use Rattle.std.specs.Prelude.{◌≡◌, [], ltb, length};
ghost use Rattle.protocol.specs.Floor.{Product, limits, limits_of};
ghost use Rattle.protocol.specs.Events.{enter, send, wire, move, flag, send_group, send_long, retire};
ghost use Rattle.protocol.specs.Events as events;
ghost use Rattle.protocol.specs.Store.{not_long};
ghost use Rattle.protocol.specs.ReadText.{read_refusal};
ghost use Rattle.products.specs.Numbers.{Fits, NumbersOf};
ghost use Rattle.view.specs.View.{lent, floor_in};
ghost use Rattle.refusals.specs.Numbers.{refusal_in};
ghost use Rattle.event_answers.specs.Answers.{answer_in};
ghost use Rattle.event_answers.specs.Met.{Met};
ghost use Rattle.event_answers.specs.Delivered.{Delivered};
ghost use Rattle.dispatcher.specs.Called.{QuietMet};
ghost use Rattle.reading.specs.Parts.{read_in, TextLent};

use event_answers::Answer;
use ids::{CartNumber, MessageNumber, Station};
use products::Bounds;
use reading::Part;
use refusals::Refusal;

// "Enter (station, cart)".
pub fn enter(
    stations: &mut [u64],
    carts: &mut [u64],
    messages: &[u64],
    lines: &[u64],
    texts: &[u8],
    store: &[u8],
    station: Station,
    cart: CartNumber,
    bounds: Bounds,
) -> Answer
    requires { Fits bounds }
    ensures { (P : Product) → NumbersOf P bounds → Met (lent P stations.old carts.old messages.now lines.now texts.now store.now) (lent P stations.new carts.new messages.now lines.now texts.now store.now) (enter station.0 cart.0) (answer_in result []) }
{
    if !form_test::passes(stations, carts, messages, lines, texts, store, bounds) {
        return Err(Refusal::NotReady);
    }
    event_carts::enter(
        stations, carts, messages, lines, texts, store, station, cart,
    )
}

// "text longer than 32"
fn is_too_long(text: &[u8]) -> bool
    ensures { result ≡ ltb 32 (length text.now) }
{
    products::TEXT < text.len()
}

// "Send (station, set, text)". A text longer than 32 octets is met before anything of the floor.
pub fn send(
    stations: &mut [u64],
    carts: &[u64],
    messages: &mut [u64],
    lines: &mut [u64],
    texts: &mut [u8],
    store: &[u8],
    station: Station,
    set: u64,
    text: &[u8],
    bounds: Bounds,
) -> Answer
    requires { Fits bounds }
    ensures { (P : Product) → NumbersOf P bounds → Met (lent P stations.old carts.now messages.old lines.old texts.old store.now) (lent P stations.new carts.now messages.new lines.new texts.new store.now) (send station.0 set text.now) (answer_in result []) }
{
    if is_too_long(text) {
        return Err(Refusal::WrongLength);
    }
    if !form_test::passes(stations, carts, messages, lines, texts, store, bounds) {
        return Err(Refusal::NotReady);
    }
    event_send::send(
        stations, carts, messages, lines, texts, store, station, set, text, bounds,
    )
}

// "Wire (from, to)".
pub fn wire(
    stations: &mut [u64],
    carts: &mut [u64],
    messages: &mut [u64],
    lines: &mut [u64],
    texts: &[u8],
    store: &[u8],
    from: Station,
    to: Station,
    bounds: Bounds,
) -> Answer
    requires { Fits bounds }
    ensures { (P : Product) → NumbersOf P bounds → Met (lent P stations.old carts.old messages.old lines.old texts.now store.now) (lent P stations.new carts.new messages.new lines.new texts.now store.now) (wire from.0 to.0) (answer_in result []) }
{
    if !form_test::passes(stations, carts, messages, lines, texts, store, bounds) {
        return Err(Refusal::NotReady);
    }
    event_wire::wire(stations, carts, messages, lines, texts, store, from, to)
}

// "Radio (station, cart)": `Delivered` says of the lent text buffer, too, what it is afterwards.
pub fn radio(
    stations: &mut [u64],
    carts: &mut [u64],
    messages: &[u64],
    lines: &mut [u64],
    texts: &[u8],
    store: &[u8],
    station: Station,
    cart: CartNumber,
    buffer: &mut [u8],
    bounds: Bounds,
) -> Answer
    requires { Fits bounds }
    ensures { (P : Product) → NumbersOf P bounds → Delivered (lent P stations.old carts.old messages.now lines.old texts.now store.now) (lent P stations.new carts.new messages.now lines.new texts.now store.now) station.0 cart.0 result buffer.old buffer.new }
{
    if !form_test::passes(stations, carts, messages, lines, texts, store, bounds) {
        return Err(Refusal::NotReady);
    }
    event_radio::radio_into(
        stations, carts, messages, lines, texts, store, station, cart, buffer,
    )
}

// "Move (cart, to)".
pub fn move_cart(
    stations: &[u64],
    carts: &mut [u64],
    messages: &[u64],
    lines: &mut [u64],
    texts: &[u8],
    store: &[u8],
    cart: CartNumber,
    to: Station,
    bounds: Bounds,
) -> Answer
    requires { Fits bounds }
    ensures { (P : Product) → NumbersOf P bounds → Met (lent P stations.now carts.old messages.now lines.old texts.now store.now) (lent P stations.now carts.new messages.now lines.new texts.now store.now) (move cart.0 to.0) (answer_in result []) }
{
    if !form_test::passes(stations, carts, messages, lines, texts, store, bounds) {
        return Err(Refusal::NotReady);
    }
    event_carts::move_cart(stations, carts, messages, lines, texts, store, cart, to)
}

// "A cart counts as steady from its entry until told": the cart is told steady, or not.
pub fn flag_cart(
    stations: &[u64],
    carts: &mut [u64],
    messages: &[u64],
    lines: &[u64],
    texts: &[u8],
    store: &[u8],
    cart: CartNumber,
    steady: bool,
    bounds: Bounds,
) -> Answer
    requires { Fits bounds }
    ensures { (P : Product) → NumbersOf P bounds → Met (lent P stations.now carts.old messages.now lines.now texts.now store.now) (lent P stations.now carts.new messages.now lines.now texts.now store.now) (flag cart.0 steady) (answer_in result []) }
{
    if !form_test::passes(stations, carts, messages, lines, texts, store, bounds) {
        return Err(Refusal::NotReady);
    }
    event_carts::flag_cart(stations, carts, messages, lines, texts, store, cart, steady)
}

// "Kind 7 carries a group number .. and the set; an empty set undefines the group".
pub fn define_group(
    stations: &mut [u64],
    carts: &[u64],
    messages: &[u64],
    lines: &[u64],
    texts: &[u8],
    store: &[u8],
    group: u64,
    set: u64,
    bounds: Bounds,
) -> Answer
    requires { Fits bounds }
    ensures { (P : Product) → NumbersOf P bounds → Met (lent P stations.old carts.now messages.now lines.now texts.now store.now) (lent P stations.new carts.now messages.now lines.now texts.now store.now) (events.group group set) (answer_in result []) }
{
    if !form_test::passes(stations, carts, messages, lines, texts, store, bounds) {
        return Err(Refusal::NotReady);
    }
    event_groups::define_group(stations, carts, messages, lines, texts, store, group, set)
}

// "Kind 8 carries station, group .. and length, then text, and sends to the members as they are at that send". A text longer than 32 octets is met
// before anything of the floor.
pub fn send_group(
    stations: &mut [u64],
    carts: &[u64],
    messages: &mut [u64],
    lines: &mut [u64],
    texts: &mut [u8],
    store: &[u8],
    station: Station,
    group: u64,
    text: &[u8],
    bounds: Bounds,
) -> Answer
    requires { Fits bounds }
    ensures { (P : Product) → NumbersOf P bounds → Met (lent P stations.old carts.now messages.old lines.old texts.old store.now) (lent P stations.new carts.now messages.new lines.new texts.new store.now) (send_group station.0 group text.now) (answer_in result []) }
{
    if is_too_long(text) {
        return Err(Refusal::WrongLength);
    }
    if !form_test::passes(stations, carts, messages, lines, texts, store, bounds) {
        return Err(Refusal::NotReady);
    }
    event_send::send_group(
        stations, carts, messages, lines, texts, store, station, group, text, bounds,
    )
}

// "for kind 9, 4 for other lengths" than "33 to 512 octets".
fn is_not_long(text: &[u8]) -> bool
    ensures { result ≡ not_long limits (length text.now) }
{
    text.len() <= products::TEXT || products::LONG < text.len()
}

// "Kind 9 is a send whose text has 33 to 512 octets". A text of another length is met before anything of the floor.
pub fn send_long(
    stations: &mut [u64],
    carts: &[u64],
    messages: &mut [u64],
    lines: &mut [u64],
    texts: &[u8],
    store: &mut [u8],
    station: Station,
    set: u64,
    text: &[u8],
    bounds: Bounds,
) -> Answer
    requires { Fits bounds }
    ensures { (P : Product) → NumbersOf P bounds → Met (lent P stations.old carts.now messages.old lines.old texts.now store.old) (lent P stations.new carts.now messages.new lines.new texts.now store.new) (send_long station.0 set text.now) (answer_in result []) }
{
    if is_not_long(text) {
        return Err(Refusal::WrongLength);
    }
    if !form_test::passes(stations, carts, messages, lines, texts, store, bounds) {
        return Err(Refusal::NotReady);
    }
    event_send::send_long(
        stations, carts, messages, lines, texts, store, station, set, text, bounds,
    )
}

// "Kind 10 carries a cart and retires it: the number becomes outside, leaves every group".
pub fn retire(
    stations: &mut [u64],
    carts: &mut [u64],
    messages: &[u64],
    lines: &[u64],
    texts: &[u8],
    store: &[u8],
    cart: CartNumber,
    bounds: Bounds,
) -> Answer
    requires { Fits bounds }
    ensures { (P : Product) → NumbersOf P bounds → Met (lent P stations.old carts.old messages.now lines.now texts.now store.now) (lent P stations.new carts.new messages.now lines.now texts.now store.now) (retire cart.0) (answer_in result []) }
{
    if !form_test::passes(stations, carts, messages, lines, texts, store, bounds) {
        return Err(Refusal::NotReady);
    }
    event_carts::retire(stations, carts, messages, lines, texts, store, cart)
}

// "Run the floor until it is quiet", with a lent text buffer: 5, "21 if that buffer is shorter", now "below 512", "after 5, before the first step", and then
// all steps that there are to be taken, wires first.
pub fn quiet(
    stations: &mut [u64],
    carts: &mut [u64],
    messages: &mut [u64],
    lines: &mut [u64],
    texts: &[u8],
    store: &[u8],
    buffer: &mut [u8],
    bounds: Bounds,
) -> Result<u64, Refusal>
    requires { Fits bounds }
    ensures { (P : Product) → NumbersOf P bounds → QuietMet (lent P stations.old carts.old messages.old lines.old texts.now store.now) (lent P stations.new carts.new messages.new lines.new texts.now store.now) buffer.old buffer.new result }
{
    if !form_test::passes(stations, carts, messages, lines, texts, store, bounds) {
        return Err(Refusal::NotReady);
    }
    if buffer.len() < products::LONG {
        return Err(Refusal::ShortBuffer);
    }
    Ok(dispatcher::run_until_quiet(stations, carts, messages, lines, texts, store, buffer))
}

// What the reading call comes to: "for the reading call, 5, 8, then 28 message not held", or the part that it lends back.
pub fn read(
    stations: &[u64],
    carts: &[u64],
    messages: &[u64],
    lines: &[u64],
    texts: &[u8],
    store: &[u8],
    initiator: Station,
    number: MessageNumber,
    bounds: Bounds,
) -> Result<Part, Refusal>
    requires { Fits bounds }
    ensures { (P : Product) → NumbersOf P bounds → result ≡ read_in (lent P stations.now carts.now messages.now lines.now texts.now store.now) initiator.0 number.0 }
{
    if form_test::passes(stations, carts, messages, lines, texts, store, bounds) {
        return reading::read(stations, messages, bounds.held, initiator, number);
    }
    Err(Refusal::NotReady)
}

// THE READING CALL: "by initiator and number, lends back that text's own part of the short table or of the long store"; "refused, it lends back the empty
// part at the front of the short table".
pub fn text_of<'a>(
    stations: &[u64],
    carts: &[u64],
    messages: &[u64],
    lines: &[u64],
    texts: &'a [u8],
    store: &'a [u8],
    initiator: Station,
    number: MessageNumber,
    bounds: Bounds,
) -> &'a [u8]
    requires { Fits bounds }
    ensures { (P : Product) → NumbersOf P bounds → TextLent (lent P stations.now carts.now messages.now lines.now texts.now store.now) texts.entry store.entry initiator.0 number.0 result }
{
    let found = read(
        stations, carts, messages, lines, texts, store, initiator, number, bounds,
    );
    let part = reading::part_or_front(found);
    reading::lend(texts, store, part)
}

// Why the reading call is refused, if it is: "a call beside it gives the number, 0 if not refused".
pub fn text_refusal(
    stations: &[u64],
    carts: &[u64],
    messages: &[u64],
    lines: &[u64],
    texts: &[u8],
    store: &[u8],
    initiator: Station,
    number: MessageNumber,
    bounds: Bounds,
) -> Result<(), Refusal>
    requires { Fits bounds }
    ensures { (P : Product) → NumbersOf P bounds → refusal_in result ≡ read_refusal (limits_of P) (floor_in (lent P stations.now carts.now messages.now lines.now texts.now store.now)) initiator.0 number.0 }
{
    read(
        stations, carts, messages, lines, texts, store, initiator, number, bounds,
    )?;
    Ok(())
}
