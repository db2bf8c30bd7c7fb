// THE RUN: frames in, one line each out, over a lent floor that nothing is tested twice of. "The program floor reads frames from standard input
// and prints one line each."
#![tactic(auto)]

ghost use Rattle.std.specs.Prelude.{◌≡◌, true, false, not, ◌&&◌, ◌||◌, ◌+◌, ◌<◌, ◌≤◌, eqb, leb, length, drop};
ghost use Rattle.protocol.specs.Events.{refused};
ghost use Rattle.protocol.specs.Printed.{decimal, rest_of, line_of};
ghost use Rattle.view.specs.View.{lent};
ghost use Rattle.event_answers.specs.Met.{MetWith};
ghost use Rattle.refusals.specs.Numbers.{number_of};
ghost use Rattle.frames.specs.Decoded.{event_in, size_of, TextFits};
ghost use Rattle.frame_lines.specs.Lines.{Tabled, Wrote, Began, longest_number, longest_rest, rest_room, longest_refusal, line_room};
ghost use Rattle.frame_run.specs.declared.Stop.TheVariants.{Full, Waits, Ended};
ghost use Rattle.frame_run.specs.Stops.{stop_number};
ghost use Rattle.frame_run.specs.CanRun.{CanRun, ByEach};
ghost use Rattle.frame_run.specs.Dispatched.{without_text, with_text, dispatched_in, Within};
ghost use Rattle.frame_run.specs.Went.{Took, Turned, Went};

use event_answers::Answer;
use event_radio::Handed;
use frames::Event;
use products::Bounds;
use refusals::Refusal;
use reports::Report;

// "Sixteen octets".
const FRAME: usize = 16;

// The number of a frame that is cut short.
const CUT: u64 = 1;

// An event that was accepted: its report, and, of a radio step, which room's text was handed over and how many octets it has.
#[derive(Clone, Copy)]
pub struct Done {
    pub report: Report,
    pub room: usize,
    pub size: usize,
}

// An event that was dispatched, its line begun: where the line goes on behind its index, what was done or why it is refused, and how many octets the event
// took of the input.
#[derive(Clone, Copy)]
pub struct Dispatched {
    pub next: usize,
    pub answer: Result<Done, Refusal>,
    pub taken: usize,
}

// What was done, of an event that has no text.
fn done_of(answer: Answer) -> Result<Done, Refusal>
    ensures { result ≡ without_text answer }
{
    match answer {
        Ok(accepted) => {
            let told = accepted.told();
            Ok(Done {
                report: told.report,
                room: 0,
                size: 0,
            })
        }
        Err(refusal) => Err(refusal),
    }
}

// And of a radio step, whose text lies where it was handed over from.
fn done_with_text(handed: Result<Handed, Refusal>) -> Result<Done, Refusal>
    ensures { result ≡ with_text handed }
{
    match handed {
        Ok(handed) => {
            let told = handed.accepted.told();
            Ok(Done {
                report: told.report,
                room: handed.room,
                size: told.size,
            })
        }
        Err(refusal) => Err(refusal),
    }
}

// An event that has no text, dispatched.
fn without_text(next: usize, taken: usize, answer: Answer) -> Dispatched
    ensures { result ≡ record { next = next; answer = without_text answer; taken = taken } }
{
    Dispatched {
        next,
        answer: done_of(answer),
        taken,
    }
}

// An event of the run, of the frame at a place: a send is followed by its text. Its line begins at another place of the output, with the index. That
// waits for nothing, so it is written first, while the processor still looks up what the event needs.
pub fn dispatch(
    stations: &mut [u64],
    carts: &mut [u64],
    messages: &mut [u64],
    lines: &mut [u64],
    texts: &mut [u8],
    store: &mut [u8],
    bounds: Bounds,
    input: &[u8],
    at: usize,
    e: Event,
    output: &mut [u8],
    line: usize,
    numbers: &[u64],
    index: u64,
) -> Dispatched
    requires can_run { CanRun bounds (λ P. lent P stations.old carts.old messages.old lines.old texts.old store.old) }
    requires e_in_bounds { (at + size_of e ≤ length input.now) × TextFits e }
    requires longest_number_in_bounds { (line + longest_number ≤ length output.old) × Tabled numbers.now }
    ensures within { Within messages.new texts.new store.new result × MetWith bounds (λ P. lent P stations.old carts.old messages.old lines.old texts.old store.old) (λ P. lent P stations.new carts.new messages.new lines.new texts.new store.new) (event_in (drop at input.now) e) (dispatched_in messages.new texts.new store.new result) }
    ensures began { Began 3 longest_number (decimal index) output.old output.new line result.next × (result.taken ≡ size_of e) }
{
    let next = frame_lines::put_index(output, line, numbers, index);
    match e {
        Event::Start(n, k) => {
            let answer = event_start::start(
                stations, carts, messages, lines, texts, store, n, k, bounds,
            );
            without_text(next, FRAME, answer)
        }
        Event::Enter(station, cart) => {
            let answer = event_carts::enter(
                stations, carts, messages, lines, texts, store, station, cart,
            );
            without_text(next, FRAME, answer)
        }
        Event::Send(station, set, size) => {
            let from = at + FRAME;
            let text = &input[from..from + size];
            let answer = event_send::send(
                stations, carts, messages, lines, texts, store, station, set, text, bounds,
            );
            without_text(next, FRAME + size, answer)
        }
        Event::Wire(from, to) => {
            let answer = event_wire::wire(stations, carts, messages, lines, texts, store, from, to);
            without_text(next, FRAME, answer)
        }
        Event::Radio(station, cart) => {
            let handed = event_radio::radio(
                stations,
                carts,
                messages,
                lines,
                texts,
                store,
                station,
                cart,
                products::LONG,
            );
            Dispatched {
                next,
                answer: done_with_text(handed),
                taken: FRAME,
            }
        }
        Event::Move(cart, to) => {
            let answer = event_carts::move_cart(
                stations, carts, messages, lines, texts, store, cart, to,
            );
            without_text(next, FRAME, answer)
        }
        Event::Flag(cart, steady) => {
            let answer = event_carts::flag_cart(
                stations, carts, messages, lines, texts, store, cart, steady,
            );
            without_text(next, FRAME, answer)
        }
        Event::Group(group, set) => {
            let answer = event_groups::define_group(
                stations, carts, messages, lines, texts, store, group, set,
            );
            without_text(next, FRAME, answer)
        }
        Event::SendGroup(station, group, size) => {
            let from = at + FRAME;
            let text = &input[from..from + size];
            let answer = event_send::send_group(
                stations, carts, messages, lines, texts, store, station, group, text, bounds,
            );
            without_text(next, FRAME + size, answer)
        }
        Event::SendLong(station, set, size) => {
            let from = at + FRAME;
            let text = &input[from..from + size];
            let answer = event_send::send_long(
                stations, carts, messages, lines, texts, store, station, set, text, bounds,
            );
            without_text(next, FRAME + size, answer)
        }
        Event::Retire(cart) => {
            let answer = event_carts::retire(stations, carts, messages, lines, texts, store, cart);
            without_text(next, FRAME, answer)
        }
    }
}

// The rest of the line of a dispatched event, behind its index. Of a text in a room's part all the part is lent, so that no loop runs as often as the
// text is long; the store is looked at for a longer one alone.
fn print<'a>(
    out: &mut [u8],
    messages: &[u64],
    texts: &'a [u8],
    store: &'a [u8],
    numbers: &[u64],
    dispatched: Dispatched,
) -> usize
    requires { (dispatched.next + rest_room ≤ length out.old) × Within messages.now texts.now store.now dispatched × Tabled numbers.now }
    ensures { Wrote longest_rest (rest_of (dispatched_in messages.now texts.now store.now dispatched)) out.old out.new dispatched.next result }
{
    let at = dispatched.next;
    match dispatched.answer {
        Ok(done) => {
            if products::TEXT < done.size {
                let text = store::text_of(messages, texts, store, done.room);
                return frame_lines::end_accepted_long(out, at, done.report, text);
            }
            let from = done.room * products::TEXT;
            let end = from + products::TEXT;
            frame_lines::end_accepted(out, at, numbers, done.report, &texts[from..end], done.size)
        }
        Err(refusal) => frame_lines::end_refused(out, at, refusal.number()),
    }
}

// Why a run over a piece stops.
#[derive(Clone, Copy, Debug, PartialEq, Eq)]
pub enum Stop {
    // 0: the output has no room for another line. Until then the run goes on, so it begins with this.
    Full,
    // 1: no whole frame is left in the piece.
    Waits,
    // 2: "Refusals 1 to 4 end the run."
    Ended,
}

impl Stop {
    // The number by which callers of other languages are told.
    pub fn number(self) -> u64
        ensures { result ≡ stop_number self }
    {
        match self {
            Stop::Full => 0,
            Stop::Waits => 1,
            Stop::Ended => 2,
        }
    }
}

// How far a piece of input was run: the octets read from its front, the octets written to the front of the output, the frames, and why it
// stopped.
#[derive(Clone, Copy)]
pub struct Progress {
    pub read: usize,
    pub written: usize,
    pub frames: u64,
    pub state: Stop,
}

// The same progress, and no whole frame is left.
pub fn waiting(p: Progress) -> Progress
    ensures { result ≡ record { read = p.read; written = p.written; frames = p.frames; state = Waits } }
{
    Progress {
        read: p.read,
        written: p.written,
        frames: p.frames,
        state: Stop::Waits,
    }
}

// Is no whole frame there? No octet is left, which has no refusal; or the frame is cut short at the end of the piece, where more input may come.
pub fn none_whole(number: u64, last: bool) -> bool
    ensures { result ≡ (eqb number 0 || (eqb number 1 && not last)) }
{
    if number == 0 {
        return true;
    }
    number == CUT && !last
}

// The event of a frame, and its line.
fn take_event(
    input: &[u8],
    output: &mut [u8],
    stations: &mut [u64],
    carts: &mut [u64],
    messages: &mut [u64],
    lines: &mut [u64],
    texts: &mut [u8],
    store: &mut [u8],
    bounds: Bounds,
    numbers: &[u64],
    index: u64,
    p: Progress,
    e: Event,
) -> Progress
    requires can_run { CanRun bounds (λ P. lent P stations.old carts.old messages.old lines.old texts.old store.old) }
    requires e_in_bounds { (p.read + size_of e ≤ length input.now) × TextFits e × (p.written + line_room ≤ length output.old) }
    requires frames_le_read { (p.frames ≤ p.read) × (length input.now + 1 < 18446744073709551616) × Tabled numbers.now }
    ensures { ByEach bounds (λ P. lent P stations.old carts.old messages.old lines.old texts.old store.old) (λ P. lent P stations.new carts.new messages.new lines.new texts.new store.new) (λ L L'. Took index L L' output.old output.new p result (event_in (drop p.read input.now) e) (size_of e)) }
{
    let dispatched = dispatch(
        stations, carts, messages, lines, texts, store, bounds, input, p.read, e, output,
        p.written, numbers, index,
    );
    let written = print(output, messages, texts, store, numbers, dispatched);
    Progress {
        read: p.read + dispatched.taken,
        written,
        frames: p.frames + 1,
        state: Stop::Full,
    }
}

// The line of a frame that is refused, which ends the run.
pub fn refuse(output: &mut [u8], index: u64, p: Progress, number: u64) -> Progress
    requires { (p.written + line_room ≤ length output.old) × (p.frames + 1 < 18446744073709551616) }
    ensures wrote { Wrote longest_refusal (line_of index (refused number)) output.old output.new p.written result.written }
    ensures read_value { (result.read ≡ p.read) × (result.frames ≡ p.frames + 1) × (result.state ≡ Ended) }
{
    let written = frame_lines::put_refusal(output, p.written, index, number);
    Progress {
        read: p.read,
        written,
        frames: p.frames + 1,
        state: Stop::Ended,
    }
}

// The frame behind those that were run, if a whole one is there; `last` says that no more input comes behind the piece. "A frame is either taken
// apart into one event or refused."
fn take_frame(
    input: &[u8],
    output: &mut [u8],
    stations: &mut [u64],
    carts: &mut [u64],
    messages: &mut [u64],
    lines: &mut [u64],
    texts: &mut [u8],
    store: &mut [u8],
    bounds: Bounds,
    numbers: &[u64],
    index: u64,
    p: Progress,
    last: bool,
) -> Progress
    requires can_run { CanRun bounds (λ P. lent P stations.old carts.old messages.old lines.old texts.old store.old) }
    requires state_value { (p.state ≡ Full) × (p.read ≤ length input.now) × (p.written + line_room ≤ length output.old) }
    requires frames_le_read { (p.frames ≤ p.read) × (length input.now + 1 < 18446744073709551616) × Tabled numbers.now }
    ensures { ByEach bounds (λ P. lent P stations.old carts.old messages.old lines.old texts.old store.old) (λ P. lent P stations.new carts.new messages.new lines.new texts.new store.new) (λ L L'. Turned input.now index last L L' output.old output.new p result) }
{
    match frames::frame_at(input, p.read) {
        Ok(Some(e)) => take_event(
            input, output, stations, carts, messages, lines, texts, store, bounds, numbers, index,
            p, e,
        ),
        Ok(None) => waiting(p),
        Err(refusal) => {
            let number = refusal.number();
            if none_whole(number, last) {
                return waiting(p);
            }
            refuse(output, index, p, number)
        }
    }
}

// Nothing stopped the run yet, and the output has room for another line.
pub fn goes_on(output: &[u8], p: Progress) -> bool
    requires { p.written ≤ length output.now }
    ensures { result ≡ (eqb (stop_number p.state) 0 && leb (p.written + line_room) (length output.now)) }
{
    match p.state {
        Stop::Full => frame_lines::LINE_ROOM <= output.len() - p.written,
        Stop::Waits | Stop::Ended => false,
    }
}

// The table of numbers, by which lines are written.
pub fn all_numbers() -> [u64; 10000]
    ensures { Tabled result }
{
    let mut numbers = [0u64; 10000];
    frame_lines::spell_all(&mut numbers);
    numbers
}

// THE RUN OVER A PIECE: whole frames are taken from the front of the input while the output has room for their lines, from the frame with this
// index on. What it writes is, octet for octet, the printed lines of the written run over those frames, and the floor that it leaves is that
// run's. The table of numbers is lent too, so that it is made once and not for each piece.
pub fn take_frames(
    input: &[u8],
    output: &mut [u8],
    stations: &mut [u64],
    carts: &mut [u64],
    messages: &mut [u64],
    lines: &mut [u64],
    texts: &mut [u8],
    store: &mut [u8],
    bounds: Bounds,
    numbers: &[u64],
    index: u64,
    last: bool,
) -> Progress
    requires can_run { CanRun bounds (λ P. lent P stations.old carts.old messages.old lines.old texts.old store.old) × Tabled numbers.now }
    requires input_bound { index + length input.now + 1 < 18446744073709551616 }
    ensures { ByEach bounds (λ P. lent P stations.old carts.old messages.old lines.old texts.old store.old) (λ P. lent P stations.new carts.new messages.new lines.new texts.new store.new) (λ L L'. Went input.now index last L L' output.old output.new result) }
{
    let mut p = Progress {
        read: 0,
        written: 0,
        frames: 0,
        state: Stop::Full,
    };
    // No range to go over: how many frames there are is known once they were read, and the octets left are the measure.
    while goes_on(output, p) {
        p = take_frame(
            input,
            output,
            stations,
            carts,
            messages,
            lines,
            texts,
            store,
            bounds,
            numbers,
            index + p.frames,
            p,
            last,
        );
    }
    p
}
