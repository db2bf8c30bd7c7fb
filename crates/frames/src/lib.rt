// Frames: "a frame is either taken apart into one event or refused".
#![tactic(auto)]

ghost use Rattle.std.specs.Prelude.{◌≡◌, List, ℕ, ◌+◌, ◌-◌, ◌<◌, ◌≤◌, ltb, length, take, drop};
ghost use Rattle.std.proofs.Math.Seq.{paste};
ghost use Rattle.protocol.specs.Floor.{limits};
ghost use Rattle.protocol.specs.Store.{not_long};
ghost use Rattle.protocol.specs.Frames.{big_endian, fields_of, read_at};
ghost use Rattle.frames.specs.Decoded.{fields_in, if_listed, if_whole, frame_in, size_of, frame_reading, reading_in, refusal_of};

use ids::{CartNumber, Station};
use refusals::Refusal;

// An event.
#[derive(Clone, Copy)]
pub enum Event {
    // How many stations, and how many carts.
    Start(u64, u64),
    Enter(Station, CartNumber),
    // The set, and how long the text is: the octets behind the frame.
    Send(Station, u64, usize),
    // From, to.
    Wire(Station, Station),
    Radio(Station, CartNumber),
    // The cart, to.
    Move(CartNumber, Station),
    // The cart, and whether it is steady.
    Flag(CartNumber, bool),
    // The group, and its members from now on.
    Group(u64, u64),
    // The group, and how long the text is.
    SendGroup(Station, u64, usize),
    // A send of a long text: the set, and how long the text is.
    SendLong(Station, u64, usize),
    // The cart that goes back.
    Retire(CartNumber),
}

// The sixteen octets of a frame as two numbers: kind to zero, and the set.
#[derive(Clone, Copy)]
struct Halves {
    head: u64,
    set: u64,
}

// "Sixteen octets."
const FRAME: usize = 16;

// The lowest bit of each field of the head: "kind 4 bits, station 4, cart 6, other 4, length 6, zero 40".
const KIND_BIT: u64 = 1 << 60;

const STATION_BIT: u64 = 1 << 56;

const CART_BIT: u64 = 1 << 50;

const OTHER_BIT: u64 = 1 << 46;

const LENGTH_BIT: u64 = 1 << 40;

// The lowest bit of the head above a long text's length: "the last sixteen of the forty zero bits hold that length".
const ABOVE_LONG: u64 = 1 << 16;

// Eight octets as one number: "packed most significant bit first".
fn word_at(octets: &[u8], at: usize) -> u64
    requires { at + 8 ≤ length octets.now }
    ensures { result ≡ big_endian 0 (take 8 (drop at octets.now)) }
{
    let eight: &[u8; 8] = octets[at..at + 8].first_chunk().unwrap();
    u64::from_be_bytes(*eight)
}

// The frame at a place: kind to zero, and the set.
fn halves_at(octets: &[u8], at: usize) -> Halves
    requires { at + 16 ≤ length octets.now }
    ensures { fields_in result ≡ fields_of (drop at octets.now) }
{
    Halves {
        head: word_at(octets, at),
        set: word_at(octets, at + 8),
    }
}

// The event of a frame whose kind does not list the low bits of the head, a field above them and the set, if all that is zero: "Fields not listed for a
// kind must be zero."
fn if_listed(low: u64, field: u64, set: u64, e: Event) -> Result<Event, Refusal>
    ensures { result ≡ if_listed (low + field + set) e }
{
    if low != 0 || field != 0 || set != 0 {
        return Err(Refusal::StrayField);
    }
    Ok(e)
}

// An event with a text of this length, and so many octets behind its frame: "Checks run down the table".
fn if_whole(length: u64, behind: usize, e: Event) -> Result<Event, Refusal>
    ensures { result ≡ if_whole (ltb limits.text length) length behind e }
{
    if (products::TEXT as u64) < length {
        return Err(Refusal::WrongLength);
    }
    if (behind as u64) < length {
        return Err(Refusal::CutShort);
    }
    Ok(e)
}

// The same of a long text: "33 to 512 octets", and "4 for other lengths".
fn if_whole_long(length: u64, behind: usize, e: Event) -> Result<Event, Refusal>
    ensures { result ≡ if_whole (not_long limits length) length behind e }
{
    if length <= products::TEXT as u64 || (products::LONG as u64) < length {
        return Err(Refusal::WrongLength);
    }
    if (behind as u64) < length {
        return Err(Refusal::CutShort);
    }
    Ok(e)
}

// "2 send (station, length, set)", with so many octets behind the frame.
fn send_of(f: Halves, behind: usize) -> Result<Event, Refusal>
    requires { (fields_in f).kind ≡ 2 }
    ensures { (l : List ℕ) → frame_reading l result ≡ frame_in l (fields_in f) behind }
{
    let stray = f.head % LENGTH_BIT + f.head / OTHER_BIT % 1024;
    if stray != 0 {
        return Err(Refusal::StrayField);
    }
    let length = f.head / LENGTH_BIT % 64;
    let e = Event::Send(Station(f.head / STATION_BIT % 16), f.set, length as usize);
    if_whole(length, behind, e)
}

// "New frame kind 6 carries a cart and, in the other field, 1 for steady or 0 for not; 2 to 15 there is refusal 3": of that field all but the lowest bit
// is as a field that is not listed.
fn flag_of(f: Halves) -> Result<Event, Refusal>
    requires { (fields_in f).kind ≡ 6 }
    ensures { (l : List ℕ) (behind : ℕ) → frame_reading l result ≡ frame_in l (fields_in f) behind }
{
    let station = f.head / STATION_BIT % 16;
    let other = f.head / OTHER_BIT % 16;
    let stray = station + other / 2;
    let e = Event::Flag(CartNumber(f.head / CART_BIT % 64), other == 1);
    if_listed(f.head % OTHER_BIT, stray, f.set, e)
}

// "Kind 7 carries a group number in the other field and the set".
fn group_of(f: Halves) -> Result<Event, Refusal>
    requires { (fields_in f).kind ≡ 7 }
    ensures { (l : List ℕ) (behind : ℕ) → frame_reading l result ≡ frame_in l (fields_in f) behind }
{
    let stray = f.head / STATION_BIT % 16 + f.head / CART_BIT % 64;
    let e = Event::Group(f.head / OTHER_BIT % 16, f.set);
    if_listed(f.head % OTHER_BIT, stray, 0, e)
}

// "Kind 8 carries station, group (other field) and length, then text", with so many octets behind the frame.
fn send_group_of(f: Halves, behind: usize) -> Result<Event, Refusal>
    requires { (fields_in f).kind ≡ 8 }
    ensures { (l : List ℕ) → frame_reading l result ≡ frame_in l (fields_in f) behind }
{
    let stray = f.head % LENGTH_BIT + f.head / CART_BIT % 64;
    if stray != 0 || f.set != 0 {
        return Err(Refusal::StrayField);
    }
    let length = f.head / LENGTH_BIT % 64;
    let group = f.head / OTHER_BIT % 16;
    let e = Event::SendGroup(Station(f.head / STATION_BIT % 16), group, length as usize);
    if_whole(length, behind, e)
}

// "Kind 9 is a send whose text has 33 to 512 octets; the last sixteen of the forty zero bits hold that length, and the six-bit length stays zero", with
// so many octets behind the frame. Cart, other and the six-bit length are the sixteen bits below the station.
fn send_long_of(f: Halves, behind: usize) -> Result<Event, Refusal>
    requires { (fields_in f).kind ≡ 9 }
    ensures { (l : List ℕ) → frame_reading l result ≡ frame_in l (fields_in f) behind }
{
    let stray = f.head % LENGTH_BIT / ABOVE_LONG + f.head / LENGTH_BIT % 65536;
    if stray != 0 {
        return Err(Refusal::StrayField);
    }
    let length = f.head % ABOVE_LONG;
    let e = Event::SendLong(Station(f.head / STATION_BIT % 16), f.set, length as usize);
    if_whole_long(length, behind, e)
}

// "Kind 10 carries a cart": the low bits are those below it.
fn retire_of(f: Halves) -> Result<Event, Refusal>
    requires { (fields_in f).kind ≡ 10 }
    ensures { (l : List ℕ) (behind : ℕ) → frame_reading l result ≡ frame_in l (fields_in f) behind }
{
    let stray = f.head / STATION_BIT % 16;
    let e = Event::Retire(CartNumber(f.head / CART_BIT % 64));
    if_listed(f.head % CART_BIT, stray, f.set, e)
}

// A frame of a kind above 7, with so many octets behind it: "refusal 2 no longer covers a kind once a request defines it".
fn latest_of(f: Halves, behind: usize) -> Result<Event, Refusal>
    requires { 7 < (fields_in f).kind }
    ensures { (l : List ℕ) → frame_reading l result ≡ frame_in l (fields_in f) behind }
{
    let kind = f.head / KIND_BIT;
    if kind == 8 {
        return send_group_of(f, behind);
    }
    if kind == 9 {
        return send_long_of(f, behind);
    }
    if kind == 10 {
        return retire_of(f);
    }
    Err(Refusal::NoSuchKind)
}

// A frame of a kind that came later than the first release, with so many octets behind it.
fn later_of(f: Halves, behind: usize) -> Result<Event, Refusal>
    requires { 5 < (fields_in f).kind }
    ensures { (l : List ℕ) → frame_reading l result ≡ frame_in l (fields_in f) behind }
{
    let kind = f.head / KIND_BIT;
    if 7 < kind {
        return latest_of(f, behind);
    }
    if kind == 6 {
        return flag_of(f);
    }
    group_of(f)
}

// A frame with so many octets behind it, taken apart by its kind or refused. Kinds are asked for one after the other, and not by a table of jumps:
// which comes cannot be guessed, and a table has to be read before it is known that the guess was wrong. For the same reason those of the first release
// are told from the later ones by a comparison, and never more than three are asked for in a row.
fn reading_of(f: Halves, behind: usize) -> Result<Event, Refusal>
    ensures { (l : List ℕ) → frame_reading l result ≡ frame_in l (fields_in f) behind }
{
    let head = f.head;
    let kind = head / KIND_BIT;
    let station = head / STATION_BIT % 16;
    if 2 < kind {
        if kind == 3 {
            let stray = head / CART_BIT % 64;
            let e = Event::Wire(Station(station), Station(head / OTHER_BIT % 16));
            return if_listed(head % OTHER_BIT, stray, f.set, e);
        }
        if kind == 4 {
            let e = Event::Radio(Station(station), CartNumber(head / CART_BIT % 64));
            return if_listed(head % CART_BIT, 0, f.set, e);
        }
        if 5 < kind {
            return later_of(f, behind);
        }
        let cart = CartNumber(head / CART_BIT % 64);
        let e = Event::Move(cart, Station(head / OTHER_BIT % 16));
        return if_listed(head % OTHER_BIT, station, f.set, e);
    }
    if kind == 2 {
        return send_of(f, behind);
    }
    if kind == 1 {
        let e = Event::Enter(Station(station), CartNumber(head / CART_BIT % 64));
        return if_listed(head % CART_BIT, 0, f.set, e);
    }
    let e = Event::Start(station + 1, head / CART_BIT % 64 + 1);
    if_listed(head % CART_BIT, 0, f.set, e)
}

// What stands at a place of the octets. "With no octet left, a position past the end counted so, the reader says end."
pub fn frame_at(octets: &[u8], at: usize) -> Result<Option<Event>, Refusal>
    ensures { reading_in (drop at octets.now) result ≡ read_at limits octets.now at }
{
    if octets.len() <= at {
        return Ok(None);
    }
    if octets.len() - at < FRAME {
        return Err(Refusal::CutShort);
    }
    let e = reading_of(halves_at(octets, at), octets.len() - at - FRAME)?;
    Ok(Some(e))
}

// How many octets an event took: its frame, and of a send of any kind the text.
pub fn size_of(e: Event) -> usize
    requires { size_of e < 18446744073709551616 }
    ensures { result ≡ size_of e }
{
    match e {
        Event::Send(_, _, length)
        | Event::SendGroup(_, _, length)
        | Event::SendLong(_, _, length) => FRAME + length,
        _ => FRAME,
    }
}

// The refusal number of a reading, 0 for an event and at the end.
pub fn refusal(reading: Result<Option<Event>, Refusal>) -> u64
    ensures { result ≡ refusal_of reading }
{
    match reading {
        Ok(_) => 0,
        Err(refusal) => refusal.number(),
    }
}

// The octets of a piece of input from `at` up to `have`, to its front, where a read goes on behind them. Returns how many these are: a frame that is
// not whole yet has at most 527.
pub fn keep(input: &mut [u8], at: usize, have: usize) -> usize
    requires { (at ≤ have) × (have ≤ length input.old) }
    ensures value { (result ≡ have - at) × (input.new ≡ paste input.old 0 (drop at input.old) (have - at)) }
    ensures input_len_unchanged { length input.new ≡ length input.old }
{
    input.copy_within(at..have, 0);
    have - at
}
