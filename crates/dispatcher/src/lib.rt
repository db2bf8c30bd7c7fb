// "Run the floor until it is quiet. At closing time nobody sends or moves." The dispatcher chooses one wire or radio step after the other, and takes
// it by the code of the events. Which lines are not empty, and which stations have an entry in their queue, it keeps from step to step, so that no
// choice goes over all lines or all stations.
#![tactic(auto)]

ghost use Rattle.std.specs.Prelude.{◌≡◌, true, ℕ, ◌+◌, ◌*◌, ◌<◌, ◌≤◌, length};
ghost use Rattle.protocol.specs.CartSets.{has};
ghost use Rattle.protocol.specs.Quiet.{first_cart, next_event};
ghost use Rattle.stations.specs.View.{HasHead, HasStation, head_in};
ghost use Rattle.carts.specs.Words.{HasRow};
ghost use Rattle.lines.specs.Form.{form};
ghost use Rattle.view.specs.Records.{lines_in};
ghost use Rattle.view.specs.View.{lent};
ghost use Rattle.dispatcher.specs.Busy.{busy, busy_row, IsBusy, with_if_any, busy_with, taken_off, renewed};
ghost use Rattle.dispatcher.specs.Queues.{queued_with, QueuedIn};
ghost use Rattle.dispatcher.specs.Choice.{next_in, cart_in, lowest_steady, OfFloor, Watched, OfEach, AllEmpty};
ghost use Rattle.dispatcher.specs.Taken.{records_in, DueBySome, TakenByEach};
ghost use Rattle.dispatcher.specs.Seen.{HasPlaces, busy_after, queued_after};
ghost use Rattle.dispatcher.specs.Quieted.{PassesBySome, QuietedByEach};

use event_answers::Answer;
use ids::{CartNumber, Station};

// What is kept from step to step: the stations that have a record on a line, and those that have an entry in their queue. Beside it there are
// sixteen words, the targets: for each station the set of those to which it has a record on a line. These are lent, so that no step copies them.
#[derive(Clone, Copy)]
struct Pending {
    sources: u64,
    queued: u64,
}

// A step that the dispatcher takes: a wire step (from, to), or a radio step (station, cart).
#[derive(Clone, Copy, Debug, PartialEq, Eq)]
enum Step {
    Wire(Station, Station),
    Radio(Station, CartNumber),
}

// ---- Which lines are not empty.

// The stations to which station i has a record on a line.
fn row_from(lines: &[u64], i: usize) -> u64
    requires { (i < 16) × (form lines.now ≡ true) }
    ensures { result ≡ busy_row (lines_in lines.now) i }
{
    let mut row: u64 = 0;
    for j in 0..products::INITIATORS {
        row = sets::with_if(row, j as u64, !lines::is_empty(lines, i, j));
    }
    row
}

// A set of stations with station i in it exactly if what it has, a row of targets or entries of its queue, is not empty.
fn with_if_any(set: u64, i: u64, word: u64) -> u64
    requires { i < 16 }
    ensures { result ≡ with_if_any set i word }
{
    if word == 0 {
        sets::without_member(set, i)
    } else {
        sets::with_member(set, i)
    }
}

// Station i has another row of targets. Answers which stations have a record on a line then.
fn put_row(targets: &mut [u64], sources: u64, i: usize, row: u64) -> u64
    requires { (i < 16) × (length targets.old ≡ 16) }
    ensures { busy targets.new result ≡ busy_with (busy targets.old sources) i row }
{
    targets[i] = row;
    with_if_any(sources, i as u64, row)
}

// Every line is looked at once, at the start.
fn busy_lines(targets: &mut [u64], lines: &[u64]) -> u64
    requires { (length targets.old ≡ 16) × (form lines.now ≡ true) }
    ensures { IsBusy (lines_in lines.now) (busy targets.new result) }
{
    let mut sources: u64 = 0;
    for i in 0..products::INITIATORS {
        let row = row_from(lines, i);
        sources = put_row(targets, sources, i, row);
    }
    sources
}

// A record was taken off the line from one station to another: it may have been the last there.
fn taken_off(targets: &mut [u64], lines: &[u64], sources: u64, from: Station, to: Station) -> u64
    requires { (from.0 < 16) × (to.0 < 16) × (length targets.old ≡ 16) × (form lines.now ≡ true) }
    ensures { busy targets.new result ≡ taken_off (lines_in lines.now) (busy targets.old sources) from.0 to.0 }
{
    let i = from.0 as usize;
    let j = to.0 as usize;
    if !lines::is_empty(lines, i, j) {
        return sources;
    }
    let row = sets::without_member(targets[i], to.0);
    put_row(targets, sources, i, row)
}

// So many records were put on lines by a step at the station. All of them went on lines from there, and where none was put nothing has to be looked at.
fn renewed(targets: &mut [u64], lines: &[u64], sources: u64, station: Station, records: u64) -> u64
    requires { (station.0 < 16) × (length targets.old ≡ 16) × (form lines.now ≡ true) }
    ensures { busy targets.new result ≡ renewed (lines_in lines.now) (busy targets.old sources) station.0 records }
{
    if records == 0 {
        return sources;
    }
    let t = station.0 as usize;
    let row = row_from(lines, t);
    put_row(targets, sources, t, row)
}

// ---- Which stations have an entry in their queue.

// The station's queue is looked at, which costs a load.
fn queue_seen(stations: &[u64], queued: u64, station: Station) -> u64
    requires { HasStation stations.now station.0 × (station.0 < 16) }
    ensures { result ≡ queued_with stations.now queued station.0 }
{
    with_if_any(queued, station.0, stations::entries_of(stations, station))
}

// Every queue is looked at once, at the start.
fn queued_stations(stations: &[u64]) -> u64
    requires { HasHead stations.now × ((head_in stations.now).stations ≤ 16) × (116 + (head_in stations.now).stations * 116 ≤ length stations.now) }
    ensures { QueuedIn stations.now result }
{
    let n = stations::station_count(stations);
    let mut queued: u64 = 0;
    for t in 0..n {
        queued = queue_seen(stations, queued, Station(t));
    }
    queued
}

// ---- What is next.

// The lowest steady cart of a set, if there is one.
fn lowest_steady(carts: &[u64], set: u64) -> Option<CartNumber>
    requires { (d : ℕ) → has set d ≡ true → HasRow carts.now d }
    ensures { cart_in result ≡ lowest_steady carts.now set }
{
    for c in sets::members_of(set) {
        let cart = CartNumber(c);
        if carts::is_steady(carts, cart) {
            return Some(cart);
        }
    }
    None
}

// With all lines empty, "the lowest cart there" for which a radio step would be accepted, if there is one: every cart of the queue's head is at the
// station then, so it is the lowest steady one.
fn receiver_at(
    stations: &[u64],
    carts: &[u64],
    messages: &[u64],
    station: Station,
) -> Option<CartNumber>
    requires { OfFloor stations.now carts.now messages.now × (station.0 < (head_in stations.now).stations) }
    ensures { OfEach stations.now carts.now messages.now (λ N F. AllEmpty F → cart_in result ≡ first_cart N F station.0) }
{
    let m = queue::head(stations, messages, station)?;
    lowest_steady(carts, stations::queue_of(stations, m, station))
}

// "with all lines empty, the lowest station at which a radio step would be accepted, and the lowest cart there". Only stations with an entry are
// looked at, and mostly the first serves: another is looked at where all carts of a head entry are unsteady.
fn next_radio(stations: &[u64], carts: &[u64], messages: &[u64], queued: u64) -> Option<Step>
    requires { OfFloor stations.now carts.now messages.now × QueuedIn stations.now queued }
    ensures { OfEach stations.now carts.now messages.now (λ N F. AllEmpty F → next_event N F ≡ next_in result) }
{
    for t in sets::members_of(queued) {
        let station = Station(t);
        if let Some(cart) = receiver_at(stations, carts, messages, station) {
            return Some(Step::Radio(station, cart));
        }
    }
    None
}

// "A dispatcher takes the first nonempty line by from, then to"; with all lines empty, a radio step.
fn next_step(
    stations: &[u64],
    carts: &[u64],
    messages: &[u64],
    targets: &[u64],
    pending: Pending,
) -> Option<Step>
    requires { Watched stations.now carts.now messages.now (busy targets.now pending.sources) × QueuedIn stations.now pending.queued }
    ensures { OfEach stations.now carts.now messages.now (λ N F. IsBusy F.lines (busy targets.now pending.sources) → next_event N F ≡ next_in result) }
{
    if pending.sources == 0 {
        return next_radio(stations, carts, messages, pending.queued);
    }
    let from = sets::first(pending.sources);
    let i = from as usize;
    let to = sets::first(targets[i]);
    Some(Step::Wire(Station(from), Station(to)))
}

// ---- The steps.

// How many records a step put on lines.
fn records_of(answer: Answer) -> u64
    ensures { result ≡ records_in answer }
{
    match answer {
        Ok(accepted) => accepted.effect.records,
        Err(_) => 0,
    }
}

// The step is taken. Answers how many records it put on lines.
fn take_step(
    stations: &mut [u64],
    carts: &mut [u64],
    messages: &mut [u64],
    lines: &mut [u64],
    texts: &[u8],
    store: &[u8],
    buffer: &mut [u8],
    step: Step,
) -> u64
    requires { DueBySome (λ P. lent P stations.old carts.old messages.old lines.old texts.now store.now) step × (512 ≤ length buffer.old) }
    ensures { TakenByEach (λ P. lent P stations.old carts.old messages.old lines.old texts.now store.now) (λ P. lent P stations.new carts.new messages.new lines.new texts.now store.now) step buffer.old buffer.new result }
{
    match step {
        Step::Wire(from, to) => {
            let answer = event_wire::wire(stations, carts, messages, lines, texts, store, from, to);
            records_of(answer)
        }
        Step::Radio(station, cart) => {
            let answer = event_radio::radio_into(
                stations, carts, messages, lines, texts, store, station, cart, buffer,
            );
            records_of(answer)
        }
    }
}

// What is kept is looked at again after a step: only the line that it took a record off, the lines from the station where it happened and the queue
// there may have changed.
fn seen_after(
    targets: &mut [u64],
    stations: &[u64],
    lines: &[u64],
    pending: Pending,
    step: Step,
    records: u64,
) -> Pending
    requires { (length targets.old ≡ 16) × (form lines.now ≡ true) × HasPlaces stations.now step }
    ensures sources_after { busy targets.new result.sources ≡ busy_after (lines_in lines.now) (busy targets.old pending.sources) step records }
    ensures queued_value { result.queued ≡ queued_after stations.now pending.queued step }
{
    match step {
        Step::Wire(from, to) => {
            let left = taken_off(targets, lines, pending.sources, from, to);
            let sources = renewed(targets, lines, left, to, records);
            let queued = queue_seen(stations, pending.queued, to);
            Pending { sources, queued }
        }
        Step::Radio(station, _) => {
            let sources = renewed(targets, lines, pending.sources, station, records);
            let queued = queue_seen(stations, pending.queued, station);
            Pending { sources, queued }
        }
    }
}

// "It repeats until neither exists, and reports how many steps it took". The floor passes the form rule, and no step is tested for it again.
pub fn run_until_quiet(
    stations: &mut [u64],
    carts: &mut [u64],
    messages: &mut [u64],
    lines: &mut [u64],
    texts: &[u8],
    store: &[u8],
    buffer: &mut [u8],
) -> u64
    requires { PassesBySome (λ P. lent P stations.old carts.old messages.old lines.old texts.now store.now) × (512 ≤ length buffer.old) }
    ensures { QuietedByEach (λ P. lent P stations.old carts.old messages.old lines.old texts.now store.now) (λ P. lent P stations.new carts.new messages.new lines.new texts.now store.now) buffer.old buffer.new result }
{
    let mut steps: u64 = 0;
    let mut targets = [0u64; 16];
    let sources = busy_lines(&mut targets, lines);
    let queued = queued_stations(stations);
    let mut pending = Pending { sources, queued };
    let mut next = next_step(stations, carts, messages, &targets, pending);
    while let Some(step) = next {
        let records = take_step(stations, carts, messages, lines, texts, store, buffer, step);
        pending = seen_after(&mut targets, stations, lines, pending, step, records);
        steps += 1;
        next = next_step(stations, carts, messages, &targets, pending);
    }
    steps
}
