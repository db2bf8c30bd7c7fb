// THE FLOOR'S SIDE OF THE TRAINING BENCH: frames are run over the lent floor as `frame_run` runs them, but no line is printed. What is written instead is
// the call to the lists that each frame makes: "given exactly the accepted sends (set or members) and radio steps in their order", and the accepted
// start.
#![tactic(auto)]

ghost use Rattle.std.specs.Prelude.{◌≡◌, ◌&&◌, None, ◌+◌, ◌<◌, ◌≤◌, eqb, ltb, length, drop};
ghost use Rattle.stations.specs.View.{HasHead, head_in};
ghost use Rattle.view.specs.View.{lent};
ghost use Rattle.frames.specs.Decoded.{event_in, size_of, TextFits};
ghost use Rattle.frame_lines.specs.Lines.{Tabled};
ghost use Rattle.frame_run.specs.CanRun.{CanRun, ByEach};
ghost use Rattle.protocol.specs.Folds.{update};
ghost use Rattle.rows.specs.Rows.{RowIn};
ghost use Rattle.frame_run.specs.declared.Stop.TheVariants.{Full};
ghost use Rattle.frame_run.specs.Stops.{stop_number};
ghost use Rattle.training_rows.specs.Calls.{width, calls_in, TextIn};
ghost use Rattle.training_calls.specs.Calls.{members_for, call_for, call_told};
ghost use Rattle.training_calls.specs.Gone.{Made, Turned, Gone};

use frame_run::{Done, Progress, Stop};
use frames::Event;
use ids::Station;
use products::Bounds;
use refusals::Refusal;
use training_rows::Call;

// "Sixteen octets".
const FRAME: usize = 16;

// So many frames have a row in the table of calls, which has so many words.
pub const ROWS: u64 = 1024;

pub const CALLS: usize = 5120;

// The members of the group that an event sends to: "the members as they are at that send". Of any other event nobody asks.
fn members_for(stations: &[u64], e: Event) -> u64
    requires { HasHead stations.now }
    ensures { result ≡ members_for (head_in stations.now).groups e }
{
    let Event::SendGroup(_, group, _) = e else {
        return 0;
    };
    if stations::GROUPS <= group {
        return 0;
    }
    stations::group_of(stations, group)
}

// The call of an accepted event whose frame stands at a place of the input, if it makes one. A radio step's is for the initiator that the floor
// answered.
fn accepted_call(e: Event, members: u64, initiator: u64, at: usize) -> Option<Call>
    requires { at + 16 < 18446744073709551616 }
    ensures { result ≡ call_for e members initiator at }
{
    match e {
        Event::Start(n, k) => Some(Call::Start(n, k)),
        Event::Send(station, set, size) => Some(Call::Send(station, set, at + FRAME, size)),
        Event::SendGroup(station, _, size) => Some(Call::Send(station, members, at + FRAME, size)),
        Event::SendLong(station, set, size) => Some(Call::Send(station, set, at + FRAME, size)),
        Event::Radio(_, cart) => Some(Call::Take(Station(initiator), cart)),
        Event::Enter(_, _) => None,
        Event::Wire(_, _) => None,
        Event::Move(_, _) => None,
        Event::Flag(_, _) => None,
        Event::Group(_, _) => None,
        Event::Retire(_) => None,
    }
}

// The call of an event by what the floor answered: a refused one makes none.
fn call_of(e: Event, members: u64, answer: Result<Done, Refusal>, at: usize) -> Option<Call>
    requires { at + 16 < 18446744073709551616 }
    ensures { result ≡ call_told e members answer at }
{
    match answer {
        Ok(done) => accepted_call(e, members, done.report.a, at),
        Err(_) => None,
    }
}

// What a frame's event came to: the call that it makes, if it makes one, and how many octets it took of the input.
#[derive(Clone, Copy)]
struct CallMade {
    call: Option<Call>,
    taken: usize,
}

// An event of the run, of the frame at a place. The run begins a line for it, which nobody reads here.
fn take_event(
    input: &[u8],
    stations: &mut [u64],
    carts: &mut [u64],
    messages: &mut [u64],
    lines: &mut [u64],
    texts: &mut [u8],
    store: &mut [u8],
    bounds: Bounds,
    numbers: &[u64],
    at: usize,
    e: Event,
) -> CallMade
    requires can_run { CanRun bounds (λ P. lent P stations.old carts.old messages.old lines.old texts.old store.old) × Tabled numbers.now }
    requires e_in_bounds { (at + size_of e ≤ length input.now) × TextFits e }
    ensures by_each { ByEach bounds (λ P. lent P stations.old carts.old messages.old lines.old texts.old store.old) (λ P. lent P stations.new carts.new messages.new lines.new texts.new store.new) (λ L L'. Made input.now L L' (event_in (drop at input.now) e) result.call) }
    ensures text_in { TextIn (length input.now) result.call × (result.taken ≡ size_of e) }
{
    let members = members_for(stations, e);
    let mut line = [0u8; 20];
    let dispatched = frame_run::dispatch(
        stations, carts, messages, lines, texts, store, bounds, input, at, e, &mut line, 0,
        numbers, 0,
    );
    let call = call_of(e, members, dispatched.answer, at);
    CallMade {
        call,
        taken: dispatched.taken,
    }
}

// The row of a frame, and how far the piece was run with it.
fn put_row(calls: &mut [u64], p: Progress, made: CallMade, state: Stop) -> Progress
    requires { RowIn width calls.old p.frames × (p.read + made.taken < 18446744073709551616) × (p.frames < 1024) }
    ensures value { result ≡ record { read = p.read + made.taken; written = 0; frames = p.frames + 1; state = state } }
    ensures calls_after { (calls_in calls.new ≡ update (calls_in calls.old) p.frames made.call) × (length calls.new ≡ length calls.old) }
{
    let call = made.call;
    training_rows::put_call(calls, p.frames as usize, call);
    Progress {
        read: p.read + made.taken,
        written: 0,
        frames: p.frames + 1,
        state,
    }
}

// A frame that is refused ends the run, and makes no call.
fn refused_frame() -> CallMade
    ensures { result ≡ record { call = None; taken = 0 } }
{
    CallMade {
        call: None,
        taken: 0,
    }
}

// The frame behind those that were run, if a whole one is there; `last` says that no more input comes behind the piece.
fn take_frame(
    input: &[u8],
    calls: &mut [u64],
    stations: &mut [u64],
    carts: &mut [u64],
    messages: &mut [u64],
    lines: &mut [u64],
    texts: &mut [u8],
    store: &mut [u8],
    bounds: Bounds,
    numbers: &[u64],
    p: Progress,
    last: bool,
) -> Progress
    requires can_run { CanRun bounds (λ P. lent P stations.old carts.old messages.old lines.old texts.old store.old) × Tabled numbers.now }
    requires state_value { (p.state ≡ Full) × (p.read ≤ length input.now) × (p.frames < 1024) × (length calls.old ≡ 5120) }
    ensures { ByEach bounds (λ P. lent P stations.old carts.old messages.old lines.old texts.old store.old) (λ P. lent P stations.new carts.new messages.new lines.new texts.new store.new) (λ L L'. Turned input.now last L L' calls.old calls.new p result) }
{
    match frames::frame_at(input, p.read) {
        Ok(Some(e)) => {
            let made = take_event(
                input, stations, carts, messages, lines, texts, store, bounds, numbers, p.read, e,
            );
            put_row(calls, p, made, Stop::Full)
        }
        Ok(None) => frame_run::waiting(p),
        Err(refusal) => {
            let number = refusal.number();
            if frame_run::none_whole(number, last) {
                return frame_run::waiting(p);
            }
            put_row(calls, p, refused_frame(), Stop::Ended)
        }
    }
}

// Nothing stopped the run yet, and the table has a row for another frame.
fn goes_on(p: Progress) -> bool
    ensures { result ≡ (eqb (stop_number p.state) 0 && ltb p.frames 1024) }
{
    match p.state {
        Stop::Full => p.frames < ROWS,
        Stop::Waits | Stop::Ended => false,
    }
}

// THE CALLS OF A PIECE: whole frames are taken from the front of the input while the table has a row for each. The calls in the rows are those of the
// written run over these frames, and the floor that it leaves is that run's.
pub fn take_frames(
    input: &[u8],
    calls: &mut [u64],
    stations: &mut [u64],
    carts: &mut [u64],
    messages: &mut [u64],
    lines: &mut [u64],
    texts: &mut [u8],
    store: &mut [u8],
    bounds: Bounds,
    numbers: &[u64],
    last: bool,
) -> Progress
    requires { CanRun bounds (λ P. lent P stations.old carts.old messages.old lines.old texts.old store.old) × Tabled numbers.now × (length calls.old ≡ 5120) }
    ensures by_each { ByEach bounds (λ P. lent P stations.old carts.old messages.old lines.old texts.old store.old) (λ P. lent P stations.new carts.new messages.new lines.new texts.new store.new) (λ L L'. Gone input.now last L L' calls.new result) }
    ensures calls_len_unchanged { length calls.new ≡ length calls.old }
{
    let mut p = Progress {
        read: 0,
        written: 0,
        frames: 0,
        state: Stop::Full,
    };
    // No range to go over, as in `frame_run::take_frames`.
    while goes_on(p) {
        p = take_frame(
            input, calls, stations, carts, messages, lines, texts, store, bounds, numbers, p, last,
        );
    }
    p
}
