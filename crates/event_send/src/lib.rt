// SENDS on a floor that events can go on with: to a set of carts, to the members of a group, and of a long text. Each is refused first, "Checks run
// down the table", and then is one and the same step of the wired module.
#![tactic(auto)]

ghost use Rattle.std.specs.Prelude.{◌≡◌, false, not, List, [], ℕ, ◌+◌, ◌*◌, ◌≤◌, ◌<◌, length, IfOk, Some};
ghost use Rattle.protocol.specs.Floor.{Product, limits_of};
ghost use Rattle.protocol.specs.Events.{send, send_group, send_long};
ghost use Rattle.protocol.specs.Refusals.{undefined, refusal_if};
ghost use Rattle.products.specs.Numbers.{NumbersOf};
ghost use Rattle.stations.specs.View.{HasHead, HasStation, head_in, stations_in};
ghost use Rattle.store.specs.Layout.{size};
ghost use Rattle.store.specs.Moved.{Laid};
ghost use Rattle.view.specs.View.{lent, floor_in};
ghost use Rattle.refusals.specs.Numbers.{refusal_in};
ghost use Rattle.wired_send.specs.Rooms.{first_free};
ghost use Rattle.wired_send.specs.Sent.{Kept, KeptLong};
ghost use Rattle.event_answers.specs.Answers.{answer_in};
ghost use Rattle.event_answers.specs.Met.{ReadyWith, MetWith};
ghost use Rattle.event_send.specs.Checks.{named_checks, set_checks, text_checks, room_checks, store_checks};
ghost use Rattle.event_send.specs.Posted.{CanPost, CanPostLong, WasPosted};

use event_answers::{Accepted, Answer, Outcome};
use ids::{MessageNumber, Station};
use products::Bounds;
use refusals::Refusal;
use reports::Effect;
use wired_send::NewMessage;

// "a cart in the set, not on the floor", 9, and a named cart "not now entered", 12. A set has only carts of the floor when it is no greater than the set
// of all of them.
pub fn check_named(stations: &[u64], carts: &[u64], set: u64) -> Result<(), Refusal>
    requires { HasHead stations.now × ((head_in stations.now).carts * 19 ≤ length carts.now) × ((head_in stations.now).carts ≤ 64) }
    ensures { (P : Product) (M W T O : List ℕ) → refusal_in result ≡ named_checks (floor_in (lent P stations.now carts.now M W T O)) set }
{
    if sets::all_below(stations::cart_count(stations)) < set {
        return Err(Refusal::NoSuchCart);
    }
    if !form_groups::all_entered(carts, set) {
        return Err(Refusal::NamedOutside);
    }
    Ok(())
}

// The same of a send's set, with "empty set", 11, between the two: an empty set meets neither of them.
fn check_set(stations: &[u64], carts: &[u64], set: u64) -> Result<(), Refusal>
    requires { HasHead stations.now × ((head_in stations.now).carts * 19 ≤ length carts.now) × ((head_in stations.now).carts ≤ 64) }
    ensures { (P : Product) (M W T O : List ℕ) → refusal_in result ≡ set_checks (floor_in (lent P stations.now carts.now M W T O)) set }
{
    if set == 0 {
        return Err(Refusal::EmptySet);
    }
    check_named(stations, carts, set)
}

// "empty text", 24.
fn check_text(text: &[u8]) -> Result<(), Refusal>
    ensures { refusal_in result ≡ text_checks text.now }
{
    if text.len() == 0 {
        return Err(Refusal::EmptyText);
    }
    Ok(())
}

// "13 now speaks of the caller's last number": the station has used it; or 14, as many messages held as may be. Answers the first free room. The
// numbers are compared as the 32 bits that they have: of 64 bits the floor's last one would be no immediate of an instruction.
fn check_room(
    stations: &[u64],
    messages: &[u64],
    station: Station,
    bounds: Bounds,
) -> Result<usize, Refusal>
    requires { HasStation stations.now station.0 × ((stations_in stations.now).sent station.0 < 4294967296) × (bounds.held * 7 ≤ length messages.now) × (bounds.held ≤ 32) }
    ensures refusal { (P : Product) (C W T O : List ℕ) → NumbersOf P bounds → refusal_in result ≡ room_checks (limits_of P) (floor_in (lent P stations.now C messages.now W T O)) station.0 }
    ensures room { IfOk result (λ m. Some m ≡ first_free bounds.held messages.now) }
{
    let sent = stations::sent_of(stations, station) as u32;
    if bounds.last < sent {
        return Err(Refusal::NumbersUsed);
    }
    wired_send::free_room(messages, bounds.held).ok_or(Refusal::RoomsTaken)
}

// "27 free octets in the store, counted together, fewer than the length".
fn check_store(messages: &[u64], held: usize, text: &[u8]) -> Result<(), Refusal>
    requires { Laid held messages.now × (length text.now ≤ 512) }
    ensures { refusal_in result ≡ store_checks held messages.now text.now }
{
    if !store::has_room(messages, held, text.len()) {
        return Err(Refusal::StoreFull);
    }
    Ok(())
}

// The checks of a send to a set, 8, 9, 11, 12, "24 empty text, after 12 and before 13", 13 and 14, and of a long one "27 .., after 14". Answers the room
// that the message gets.
fn check_send(
    stations: &[u64],
    carts: &[u64],
    messages: &[u64],
    station: Station,
    set: u64,
    text: &[u8],
    bounds: Bounds,
) -> Result<usize, Refusal>
    requires has_head { HasHead stations.now × ((head_in stations.now).carts * 19 ≤ length carts.now) × ((head_in stations.now).carts ≤ 64) × (116 + (head_in stations.now).stations * 116 ≤ length stations.now) × ((stations_in stations.now).sent station.0 < 4294967296) }
    requires laid { Laid bounds.held messages.now × (bounds.held * 7 ≤ length messages.now) × (bounds.held ≤ 32) × (length text.now ≤ 512) }
    ensures short { (P : Product) (W T O : List ℕ) → NumbersOf P bounds → length text.now ≤ 32 → refusal_in result ≡ refusal_if (limits_of P) (floor_in (lent P stations.now carts.now messages.now W T O)) false (send station.0 set text.now) }
    ensures long { (P : Product) (W T O : List ℕ) → NumbersOf P bounds → length O ≡ size → 32 < length text.now → refusal_in result ≡ refusal_if (limits_of P) (floor_in (lent P stations.now carts.now messages.now W T O)) false (send_long station.0 set text.now) }
    ensures room { IfOk result (λ m. Some m ≡ first_free bounds.held messages.now) }
{
    if stations::station_count(stations) <= station.0 {
        return Err(Refusal::NoSuchStation);
    }
    check_set(stations, carts, set)?;
    check_text(text)?;
    let room = check_room(stations, messages, station, bounds)?;
    if products::TEXT < text.len() {
        check_store(messages, bounds.held, text)?;
    }
    Ok(room)
}

// Is the group defined? "an empty set undefines the group", and there is none above 15.
fn is_defined(stations: &[u64], group: u64) -> bool
    requires { HasHead stations.now }
    ensures { (P : Product) (C M W T O : List ℕ) → result ≡ not (undefined (floor_in (lent P stations.now C M W T O)) group) }
{
    if stations::GROUPS <= group {
        return false;
    }
    stations::group_of(stations, group) != 0
}

// The checks of a send to a group, "26 group not defined or above 15, after 8, then 24, 13, 14". Answers the room that the message gets. Its members
// are carts of the floor that have entered: the form rule says so, and none of them is looked at.
fn check_send_group(
    stations: &[u64],
    messages: &[u64],
    station: Station,
    group: u64,
    text: &[u8],
    bounds: Bounds,
) -> Result<usize, Refusal>
    requires { HasHead stations.now × (116 + (head_in stations.now).stations * 116 ≤ length stations.now) × (length text.now ≤ 32) × ((stations_in stations.now).sent station.0 < 4294967296) × (bounds.held * 7 ≤ length messages.now) × (bounds.held ≤ 32) }
    ensures refusal { (P : Product) (C W T O : List ℕ) → NumbersOf P bounds → refusal_in result ≡ refusal_if (limits_of P) (floor_in (lent P stations.now C messages.now W T O)) false (send_group station.0 group text.now) }
    ensures room { IfOk result (λ m. Some m ≡ first_free bounds.held messages.now) }
{
    if stations::station_count(stations) <= station.0 {
        return Err(Refusal::NoSuchStation);
    }
    if !is_defined(stations, group) {
        return Err(Refusal::NoSuchGroup);
    }
    check_text(text)?;
    check_room(stations, messages, station, bounds)
}

// A message that went out: its number, and what the step counted.
#[derive(Clone, Copy)]
struct Posted {
    number: MessageNumber,
    effect: Effect,
}

// THE STEP OF A SEND to a set or to a group: "the message takes the station's number; a multicast goes on the line to every station". The stations'
// table has so many rows beside the floor's own, and m is a free room.
fn post(
    stations: &mut [u64],
    messages: &mut [u64],
    lines: &mut [u64],
    texts: &mut [u8],
    rows: u64,
    m: usize,
    station: Station,
    set: u64,
    text: &[u8],
) -> Posted
    requires { CanPost rows stations.old messages.old lines.old texts.old m station.0 text.now }
    ensures kept { Kept messages.old messages.new texts.old texts.new m station.0 (head_in stations.old).stations ((stations_in stations.old).sent station.0) set text.now }
    ensures was_posted { WasPosted stations.old stations.new lines.old lines.new m station.0 result }
{
    let n = stations::station_count(stations);
    let number = MessageNumber(stations::sent_of(stations, station));
    let message = NewMessage {
        room: m,
        initiator: station,
        number,
        set,
    };
    let effect = wired_send::on_send(stations, messages, lines, texts, rows, n, message, text);
    Posted { number, effect }
}

// The same of a long text, which goes into the store. It stays beside `post`: another part is lent for the text, and each clause speaks of that part.
fn post_long(
    stations: &mut [u64],
    messages: &mut [u64],
    lines: &mut [u64],
    store: &mut [u8],
    bounds: Bounds,
    m: usize,
    station: Station,
    set: u64,
    text: &[u8],
) -> Posted
    requires { CanPostLong bounds stations.old messages.old lines.old store.old m station.0 text.now }
    ensures kept_long { KeptLong bounds.held messages.old messages.new store.old store.new m station.0 (head_in stations.old).stations ((stations_in stations.old).sent station.0) set text.now }
    ensures was_posted { WasPosted stations.old stations.new lines.old lines.new m station.0 result }
{
    let n = stations::station_count(stations);
    let number = MessageNumber(stations::sent_of(stations, station));
    let message = NewMessage {
        room: m,
        initiator: station,
        number,
        set,
    };
    let effect = wired_send::on_send_long(
        stations, messages, lines, store, bounds, n, message, text,
    );
    Posted { number, effect }
}

// "Send (station, set, text)". A text longer than 32 octets, 4, is the caller's to refuse, since it is met before the form rule.
pub fn send(
    stations: &mut [u64],
    carts: &[u64],
    messages: &mut [u64],
    lines: &mut [u64],
    texts: &mut [u8],
    store: &[u8],
    station: Station,
    set: u64,
    text: &[u8],
    bounds: Bounds,
) -> Answer
    requires ready_with { ReadyWith bounds (λ P. lent P stations.old carts.now messages.old lines.old texts.old store.now) }
    requires text_len_bound { length text.now ≤ 32 }
    ensures { MetWith bounds (λ P. lent P stations.old carts.now messages.old lines.old texts.old store.now) (λ P. lent P stations.new carts.now messages.new lines.new texts.new store.now) (send station.0 set text.now) (answer_in result []) }
{
    if !stations::is_started(stations) {
        return Err(Refusal::NotReady);
    }
    let room = check_send(stations, carts, messages, station, set, text, bounds)?;
    let posted = post(
        stations,
        messages,
        lines,
        texts,
        bounds.stations,
        room,
        station,
        set,
        text,
    );
    Ok(Accepted {
        outcome: Outcome::Sent(station, posted.number),
        effect: posted.effect,
    })
}

// "Kind 8 .. sends to the members as they are at that send". A text longer than 32 octets is the caller's to refuse, as for a send. The calls of the three
// kinds stay apart, since each is promised for an event of its own; what they share is in the checks and in `post`.
pub fn send_group(
    stations: &mut [u64],
    carts: &[u64],
    messages: &mut [u64],
    lines: &mut [u64],
    texts: &mut [u8],
    store: &[u8],
    station: Station,
    group: u64,
    text: &[u8],
    bounds: Bounds,
) -> Answer
    requires ready_with { ReadyWith bounds (λ P. lent P stations.old carts.now messages.old lines.old texts.old store.now) }
    requires text_len_bound { length text.now ≤ 32 }
    ensures { MetWith bounds (λ P. lent P stations.old carts.now messages.old lines.old texts.old store.now) (λ P. lent P stations.new carts.now messages.new lines.new texts.new store.now) (send_group station.0 group text.now) (answer_in result []) }
{
    if !stations::is_started(stations) {
        return Err(Refusal::NotReady);
    }
    let room = check_send_group(stations, messages, station, group, text, bounds)?;
    let members = stations::group_of(stations, group);
    let posted = post(
        stations,
        messages,
        lines,
        texts,
        bounds.stations,
        room,
        station,
        members,
        text,
    );
    Ok(Accepted {
        outcome: Outcome::SentToGroup(station, posted.number),
        effect: posted.effect,
    })
}

// "Kind 9 is a send whose text has 33 to 512 octets". A text of another length, 4, is the caller's to refuse, as for a send.
pub fn send_long(
    stations: &mut [u64],
    carts: &[u64],
    messages: &mut [u64],
    lines: &mut [u64],
    texts: &[u8],
    store: &mut [u8],
    station: Station,
    set: u64,
    text: &[u8],
    bounds: Bounds,
) -> Answer
    requires ready_with { ReadyWith bounds (λ P. lent P stations.old carts.now messages.old lines.old texts.now store.old) }
    requires in_bounds { (32 < length text.now) × (length text.now ≤ 512) }
    ensures { MetWith bounds (λ P. lent P stations.old carts.now messages.old lines.old texts.now store.old) (λ P. lent P stations.new carts.now messages.new lines.new texts.now store.new) (send_long station.0 set text.now) (answer_in result []) }
{
    if !stations::is_started(stations) {
        return Err(Refusal::NotReady);
    }
    let room = check_send(stations, carts, messages, station, set, text, bounds)?;
    let posted = post_long(
        stations, messages, lines, store, bounds, room, station, set, text,
    );
    Ok(Accepted {
        outcome: Outcome::SentLong(station, posted.number),
        effect: posted.effect,
    })
}
