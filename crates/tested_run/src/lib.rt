// THE RUN BEHIND THE FORM TEST, once for every product: frames from one lent slice, their lines into another, over any lent floor. The floor is tested once,
// and then no event tests it again. On a floor that no event can go on with every frame is answered all the same, an event with its refusal.
#![tactic(auto)]

ghost use Rattle.std.specs.Prelude.{◌≡◌, ◌+◌, ◌<◌, ◌≤◌, length};
ghost use Rattle.protocol.specs.Floor.{Product};
ghost use Rattle.protocol.specs.Events.{refused};
ghost use Rattle.protocol.specs.Printed.{line_of};
ghost use Rattle.products.specs.Numbers.{Fits, NumbersOf};
ghost use Rattle.view.specs.View.{Lent, lent, lengths_in};
ghost use Rattle.refusals.specs.Numbers.{number_of};
ghost use Rattle.frame_lines.specs.Lines.{Tabled, Wrote, longest_refusal, line_room};
ghost use Rattle.frame_run.specs.declared.Stop.TheVariants.{Full};
ghost use Rattle.frame_run.specs.CanRun.{CanRun, ByEach};
ghost use Rattle.frame_run.specs.Went.{TurnedOn, WentOn, Went};
ghost use Rattle.tested_run.specs.Stuck.{Stuck, ByTest, stuck_number, RanAny};

use frame_run::{Progress, Stop};
use frames::Event;
use products::Bounds;
use refusals::Refusal;

// "5 (form rule and lent lengths)".
const BROKEN: Refusal = Refusal::NotReady;

// What an event is refused with on a floor that none can go on with.
fn refusal_of(e: Event, lengths: bool) -> Refusal
    ensures { number_of result ≡ stuck_number lengths e }
{
    match e {
        Event::Start(_, _) => {
            if lengths {
                Refusal::AlreadyStarted
            } else {
                BROKEN
            }
        }
        _ => BROKEN,
    }
}

// The line of an event that is refused so. The run goes on behind it.
fn refuse_event(
    output: &mut [u8],
    index: u64,
    p: Progress,
    refusal: Refusal,
    size: usize,
) -> Progress
    requires { (p.written + line_room ≤ length output.old) × (p.read + size < 18446744073709551616) × (p.frames + 1 < 18446744073709551616) }
    ensures wrote { Wrote longest_refusal (line_of index (refused (number_of refusal))) output.old output.new p.written result.written }
    ensures read_value { (result.read ≡ p.read + size) × (result.frames ≡ p.frames + 1) × (result.state ≡ Full) }
{
    let written = frame_lines::put_refusal(output, p.written, index, refusal.number());
    Progress {
        read: p.read + size,
        written,
        frames: p.frames + 1,
        state: Stop::Full,
    }
}

// The frame behind those that were run, if a whole one is there. "A frame is either taken apart into one event or refused."
fn refuse_frame(
    input: &[u8],
    output: &mut [u8],
    lengths: bool,
    index: u64,
    p: Progress,
    last: bool,
) -> Progress
    requires state_value { (p.state ≡ Full) × (p.read ≤ length input.now) × (p.written + line_room ≤ length output.old) }
    requires frames_le_read { (p.frames ≤ p.read) × (length input.now + 1 < 18446744073709551616) }
    ensures turned_on { (L : Lent) → Stuck lengths L → TurnedOn (Stuck lengths) input.now index last L L output.old output.new p result }
    ensures output_len_unchanged { length output.new ≡ length output.old }
{
    match frames::frame_at(input, p.read) {
        Ok(Some(e)) => {
            let size = frames::size_of(e);
            refuse_event(output, index, p, refusal_of(e, lengths), size)
        }
        Ok(None) => frame_run::waiting(p),
        Err(refusal) => {
            let number = refusal.number();
            if frame_run::none_whole(number, last) {
                return frame_run::waiting(p);
            }
            frame_run::refuse(output, index, p, number)
        }
    }
}

// THE RUN OVER A FLOOR THAT NO EVENT CAN GO ON WITH: nothing of the floor is looked at.
fn refuse_frames(input: &[u8], output: &mut [u8], lengths: bool, index: u64, last: bool) -> Progress
    requires { ((L : Lent) × Stuck lengths L) × (index + length input.now + 1 < 18446744073709551616) }
    ensures went_on { (L : Lent) → Stuck lengths L → WentOn (Stuck lengths) input.now index last L L output.old output.new result }
    ensures output_len_unchanged { length output.new ≡ length output.old }
{
    let mut p = Progress {
        read: 0,
        written: 0,
        frames: 0,
        state: Stop::Full,
    };
    // No range to go over, as in `frame_run::take_frames`.
    while frame_run::goes_on(output, p) {
        p = refuse_frame(input, output, lengths, index + p.frames, p, last);
    }
    p
}

// Can no event go on with the lent floor? `lengths` says whether all its parts have their lengths.
fn is_stuck(
    stations: &[u64],
    carts: &[u64],
    messages: &[u64],
    lines: &[u64],
    texts: &[u8],
    store: &[u8],
    lengths: bool,
    bounds: Bounds,
) -> bool
    requires { Fits bounds × ((P : Product) → NumbersOf P bounds → lengths ≡ lengths_in (lent P stations.now carts.now messages.now lines.now texts.now store.now)) }
    ensures { (P : Product) → NumbersOf P bounds → ByTest result lengths (lent P stations.now carts.now messages.now lines.now texts.now store.now) }
{
    if !lengths {
        return true;
    }
    if !stations::is_started(stations) {
        return false;
    }
    !form_test::passes(stations, carts, messages, lines, texts, store, bounds)
}

// The run of the frames over a floor that events can go on with. The table of numbers is made for each call: it costs as much as about a thousand frames.
fn take_ready(
    input: &[u8],
    output: &mut [u8],
    stations: &mut [u64],
    carts: &mut [u64],
    messages: &mut [u64],
    lines: &mut [u64],
    texts: &mut [u8],
    store: &mut [u8],
    bounds: Bounds,
    index: u64,
    last: bool,
) -> Progress
    requires can_run { CanRun bounds (λ P. lent P stations.old carts.old messages.old lines.old texts.old store.old) }
    requires input_bound { index + length input.now + 1 < 18446744073709551616 }
    ensures { ByEach bounds (λ P. lent P stations.old carts.old messages.old lines.old texts.old store.old) (λ P. lent P stations.new carts.new messages.new lines.new texts.new store.new) (λ L L'. Went input.now index last L L' output.old output.new result) }
{
    let numbers = frame_run::all_numbers();
    frame_run::take_frames(
        input, output, stations, carts, messages, lines, texts, store, bounds, &numbers, index,
        last,
    )
}

// THE RUN OVER A PIECE, over any lent floor: whole frames are taken from the front of the input while the output has room for their lines, from the frame with
// this index on. `last` says that no more input comes behind the piece.
pub fn take_frames(
    input: &[u8],
    output: &mut [u8],
    stations: &mut [u64],
    carts: &mut [u64],
    messages: &mut [u64],
    lines: &mut [u64],
    texts: &mut [u8],
    store: &mut [u8],
    bounds: Bounds,
    index: u64,
    last: bool,
) -> Progress
    requires { Fits bounds × (0 < bounds.held) × (index + length input.now + 1 < 18446744073709551616) }
    ensures { (P : Product) → NumbersOf P bounds → RanAny input.now index last (lent P stations.old carts.old messages.old lines.old texts.old store.old) (lent P stations.new carts.new messages.new lines.new texts.new store.new) output.old output.new result }
{
    let lengths = form_test::lengths_ok(stations, carts, messages, lines, texts, store, bounds);
    if is_stuck(
        stations, carts, messages, lines, texts, store, lengths, bounds,
    ) {
        return refuse_frames(input, output, lengths, index, last);
    }
    take_ready(
        input, output, stations, carts, messages, lines, texts, store, bounds, index, last,
    )
}
