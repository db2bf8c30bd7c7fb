// FRAMES FROM A READER, LINES TO A WRITER: "reads frames from standard input and prints one line each". The run itself is `frame_run`; here
// octets go between it and the two, in large pieces, and the memory is the same whatever the input's length. Two functions touch them, `read`
// and `hand_on`. All the others are about slices and numbers, and what they come to is the written stream (specs/Stream).
#![tactic(auto)]

ghost use Rattle.std.specs.Prelude.{◌≡◌, false, not, ◌&&◌, [], ◌+◌, ◌^◌, ◌≤◌, ◌<◌, eqb, ltb, IfOk, OnErr, IfSome, Some, None, length, take};
ghost use Rattle.stations.specs.View.{head_in};
ghost use Rattle.frame_lines.specs.Lines.{Tabled};
ghost use Rattle.protocol.specs.Floor.{whole_floor, kit};
ghost use Rattle.event_answers.specs.Met.{Ready};
ghost use Rattle.frame_run.specs.CanRun.{CanRun, ByEach};
ghost use Rattle.view.specs.View.{Lent, lent};
ghost use Rattle.frame_stream.specs.declared.State.TheVariants.{Runs, Wants};
ghost use Rattle.frame_stream.specs.Feed.{state_number, Inside, stream_of, Made, after_read, next_state, after_run, RanAll, Streamed};

use frame_run::{Progress, Stop};
use products::Bounds;
use std::io::{Read, Result, Write};

// What a stream is to do.
#[derive(Clone, Copy, Debug, PartialEq, Eq)]
pub enum State {
    // A run: more frames may be there.
    Runs,
    // A read: more input is wanted.
    Wants,
    // Nothing more: the input has ended, or a frame was refused.
    Over,
    // Nothing more, for a read failed, or the lines could not be written.
    Failed,
}

// The piece of input: the octets up to `at` were run, those up to `have` were read. The index of the next frame; what is to be done; whether the
// input has ended; and how many octets of the output were handed on in the last turn.
#[derive(Clone, Copy)]
pub struct Feed {
    pub at: usize,
    pub have: usize,
    pub index: u64,
    pub state: State,
    pub last: bool,
    pub handed: usize,
}

// A run ends after this many frames, which no input has.
const FRAMES: u64 = 9223372036854775808;

// The lent parts of a floor that is not started.
pub fn no_stations() -> [u64; 1972]
    ensures { (length result ≡ 1972) × ((head_in result).mark ≡ 0) }
{
    [0; 1972]
}

pub fn no_carts() -> [u64; 1216]
    ensures { length result ≡ 1216 }
{
    [0; 1216]
}

pub fn no_messages() -> [u64; 224]
    ensures { length result ≡ 224 }
{
    [0; 224]
}

pub fn no_lines() -> [u64; 11250]
    ensures { length result ≡ 11250 }
{
    [0; 11250]
}

pub fn no_texts() -> [u8; 1024]
    ensures { length result ≡ 1024 }
{
    [0; 1024]
}

// "one store of 4,096 octets", for the floor and for the kit.
pub fn no_store() -> [u8; 4096]
    ensures { length result ≡ 4096 }
{
    [0; 4096]
}

// What a read brought: this many octets, or none, where it failed; and how many it was handed to fill.
#[derive(Clone, Copy)]
struct Got {
    brought: Option<usize>,
    room: usize,
}

// What a read's answer says: how many octets it brought, or that it failed, which is not the end of the input.
fn brought_by(answer: Result<usize>) -> Option<usize>
    ensures brought { IfOk answer (λ n. result ≡ Some n) }
    ensures failed { OnErr answer (result ≡ None) }
{
    answer.ok()
}

// One read, into the rest of the piece.
fn read<R: Read>(from: &mut R, rest: &mut [u8]) -> Got
    ensures room_value { (result.room ≡ length rest.old) × IfSome result.brought (λ n. n ≤ result.room) }
    ensures rest_len_unchanged { length rest.new ≡ length rest.old }
{
    let brought = brought_by(from.read(rest));
    Got {
        brought,
        room: rest.len(),
    }
}

// The piece, of `size` octets, after a read that was handed all of it behind what was kept. At the end of the input a read brings nothing.
fn after_read(size: usize, kept: usize, got: Got, f: Feed) -> Feed
    requires { (kept + got.room ≡ size) × (kept < size) × IfSome got.brought (λ n. n ≤ got.room) }
    ensures { result ≡ after_read kept got.brought f }
{
    let Some(count) = got.brought else {
        return Feed {
            at: 0,
            have: kept,
            index: f.index,
            state: State::Failed,
            last: f.last,
            handed: 0,
        };
    };
    Feed {
        at: 0,
        have: kept + count,
        index: f.index,
        state: State::Runs,
        last: count == 0,
        handed: 0,
    }
}

// More input behind what is not run yet.
pub fn more<R: Read>(from: &mut R, input: &mut [u8], f: Feed) -> Feed
    requires { Inside (length input.old) f × (f.state ≡ Wants) × (length input.old ≡ 65536) }
    ensures inside { Inside (length input.new) result × ((L : Lent) → Made (stream_of input.old L f) (stream_of input.new L result) []) × (result.handed ≡ 0) }
    ensures input_len_unchanged { length input.new ≡ length input.old }
{
    let kept = frames::keep(input, f.at, f.have);
    let size = input.len();
    let got = read(from, &mut input[kept..]);
    after_read(size, kept, got, f)
}

// The lines that were handed on to be written: how many octets, and whether all of them were taken. The size is said in both cases, so this is no Result.
#[derive(Clone, Copy)]
pub struct Handed {
    pub size: usize,
    pub accepted: bool,
}

// One write of all the lines.
pub fn hand_on<W: Write>(to: &mut W, lines: &[u8]) -> Handed
    ensures { result.size ≡ length lines.now }
{
    let accepted = to.write_all(lines).is_ok();
    Handed {
        size: lines.len(),
        accepted,
    }
}

// What is to be done after a piece was run: nothing once the lines could not be written, a frame was refused, or the input has ended.
fn state_after(why: Stop, last: bool, accepted: bool) -> State
    ensures { result ≡ next_state why last accepted }
{
    if !accepted {
        return State::Failed;
    }
    match why {
        Stop::Ended => State::Over,
        Stop::Full => State::Runs,
        Stop::Waits => { if last { State::Over } else { State::Wants } }
    }
}

// The piece after frames of it were run and their lines were handed on.
pub fn after_run(f: Feed, p: Progress, handed: Handed) -> Feed
    requires { (f.at + p.read < 18446744073709551616) × (f.index + p.frames < 18446744073709551616) }
    ensures { result ≡ after_run f p handed }
{
    let at = f.at + p.read;
    let index = f.index + p.frames;
    Feed {
        at,
        have: f.have,
        index,
        state: state_after(p.state, f.last, handed.accepted),
        last: f.last,
        handed: handed.size,
    }
}

// The frames that are there, and their lines.
fn run_piece<W: Write>(
    to: &mut W,
    input: &[u8],
    output: &mut [u8],
    stations: &mut [u64],
    carts: &mut [u64],
    messages: &mut [u64],
    lines: &mut [u64],
    texts: &mut [u8],
    store: &mut [u8],
    bounds: Bounds,
    numbers: &[u64],
    f: Feed,
) -> Feed
    requires can_run { CanRun bounds (λ P. lent P stations.old carts.old messages.old lines.old texts.old store.old) × Tabled numbers.now }
    requires inside { Inside (length input.now) f × (f.state ≡ Runs) × (f.index < 9223372036854775808) × (length input.now ≡ 65536) × (length output.old ≡ 65536) }
    ensures by_each { ByEach bounds (λ P. lent P stations.old carts.old messages.old lines.old texts.old store.old) (λ P. lent P stations.new carts.new messages.new lines.new texts.new store.new) (λ L L'. Ready L' × Made (stream_of input.now L f) (stream_of input.now L' result) (take result.handed output.new)) }
    ensures inside_2 { Inside (length input.now) result }
    ensures output_len_unchanged { length output.new ≡ length output.old }
{
    let at = f.at;
    let have = f.have;
    let p = frame_run::take_frames(
        &input[at..have],
        output,
        stations,
        carts,
        messages,
        lines,
        texts,
        store,
        bounds,
        numbers,
        f.index,
        f.last,
    );
    let n = p.written;
    let handed = hand_on(to, &output[..n]);
    after_run(f, p, handed)
}

// ONE TURN of the stream: a read where more input is wanted, else a run of the frames that are there.
fn turn<R: Read, W: Write>(
    from: &mut R,
    to: &mut W,
    input: &mut [u8],
    output: &mut [u8],
    stations: &mut [u64],
    carts: &mut [u64],
    messages: &mut [u64],
    lines: &mut [u64],
    texts: &mut [u8],
    store: &mut [u8],
    bounds: Bounds,
    numbers: &[u64],
    f: Feed,
) -> Feed
    requires can_run { CanRun bounds (λ P. lent P stations.old carts.old messages.old lines.old texts.old store.old) × Tabled numbers.now }
    requires inside { Inside (length input.old) f × (state_number f.state < 2) × (f.index < 9223372036854775808) × (length input.old ≡ 65536) × (length output.old ≡ 65536) }
    ensures by_each { ByEach bounds (λ P. lent P stations.old carts.old messages.old lines.old texts.old store.old) (λ P. lent P stations.new carts.new messages.new lines.new texts.new store.new) (λ L L'. Ready L' × Made (stream_of input.old L f) (stream_of input.new L' result) (take result.handed output.new)) }
    ensures inside_2 { Inside (length input.new) result }
    ensures input_len_unchanged { (length input.new ≡ length input.old) × (length output.new ≡ length output.old) }
{
    match f.state {
        State::Wants => more(from, input, f),
        _ => run_piece(
            to, input, output, stations, carts, messages, lines, texts, store, bounds, numbers, f,
        ),
    }
}

// Is there anything more to be done, and a turn left to do it?
pub fn goes_on(turns: u64, f: Feed) -> bool
    ensures { result ≡ (not (eqb turns 0) && (ltb f.index 9223372036854775808 && ltb (state_number f.state) 2)) }
{
    if turns == 0 {
        return false;
    }
    match f.state {
        State::Runs | State::Wants => f.index < FRAMES,
        State::Over | State::Failed => false,
    }
}

// How a run came out: how many frames there were, the refused one among them, whether it is `Over` or `Failed`, and how many octets were read and
// not run. An `Over` run has none left at the end of its input, and some where a frame was refused.
#[derive(Clone, Copy)]
pub struct Ending {
    pub frames: u64,
    pub state: State,
    pub left: usize,
}

// All of the input, over a floor that the caller lends, and that is left as the last event left it.
pub fn run_all<R: Read, W: Write>(
    from: &mut R,
    to: &mut W,
    input: &mut [u8],
    output: &mut [u8],
    stations: &mut [u64],
    carts: &mut [u64],
    messages: &mut [u64],
    lines: &mut [u64],
    texts: &mut [u8],
    store: &mut [u8],
    bounds: Bounds,
    numbers: &[u64],
) -> Ending
    requires { CanRun bounds (λ P. lent P stations.old carts.old messages.old lines.old texts.old store.old) × Tabled numbers.now × (length input.old ≡ 65536) × (length output.old ≡ 65536) }
    ensures { ByEach bounds (λ P. lent P stations.old carts.old messages.old lines.old texts.old store.old) (λ P. lent P stations.new carts.new messages.new lines.new texts.new store.new) (λ L L'. RanAll L L' result) }
{
    let mut f = Feed {
        at: 0,
        have: 0,
        index: 0,
        state: State::Wants,
        last: false,
        handed: 0,
    };
    // A proved loop has to end, and nothing says that the input does: so turns are counted, up to a number that no run comes to.
    for made in 0..u64::MAX {
        if !goes_on(u64::MAX - made, f) {
            break;
        }
        f = turn(
            from, to, input, output, stations, carts, messages, lines, texts, store, bounds,
            numbers, f,
        );
    }
    let left = f.have - f.at;
    Ending {
        frames: f.index,
        state: f.state,
        left,
    }
}

// The run of one input over a floor that the caller lends, by its product's numbers: frames from a reader, lines to a writer.
pub fn run_over<R: Read, W: Write>(
    from: &mut R,
    to: &mut W,
    stations: &mut [u64],
    carts: &mut [u64],
    messages: &mut [u64],
    lines: &mut [u64],
    texts: &mut [u8],
    store: &mut [u8],
    bounds: Bounds,
) -> Ending
    requires { CanRun bounds (λ P. lent P stations.old carts.old messages.old lines.old texts.old store.old) }
    ensures { ByEach bounds (λ P. lent P stations.old carts.old messages.old lines.old texts.old store.old) (λ P. lent P stations.new carts.new messages.new lines.new texts.new store.new) (λ L L'. RanAll L L' result) }
{
    let mut input = io::large_buffer();
    let mut output = io::large_buffer();
    let numbers = frame_run::all_numbers();
    run_all(
        from,
        to,
        &mut input,
        &mut output,
        stations,
        carts,
        messages,
        lines,
        texts,
        store,
        bounds,
        &numbers,
    )
}

// THE RUN OF ONE INPUT: frames from a reader, lines to a writer, over a floor of its own. The reads and runs that it makes are turns of the
// written stream, and what they hand on is the printed run.
pub fn run<R: Read, W: Write>(from: &mut R, to: &mut W) -> Ending
    ensures { Streamed whole_floor result }
{
    let mut stations = no_stations();
    let mut carts = no_carts();
    let mut messages = no_messages();
    let mut lines = no_lines();
    let mut texts = no_texts();
    let mut store = no_store();
    run_over(
        from,
        to,
        &mut stations,
        &mut carts,
        &mut messages,
        &mut lines,
        &mut texts,
        &mut store,
        products::floor_bounds(),
    )
}

// THE SAME FOR THE DEMONSTRATION KIT, "a second caller of the same steps with its own limits": the same run, over memory of the kit's lengths.
// All that both share is `run_over`: one function for both would take five const parameters and a clause for each, which is no plainer than the arrays.
pub fn run_kit<R: Read, W: Write>(from: &mut R, to: &mut W) -> Ending
    ensures { Streamed kit result }
{
    let mut stations = [0u64; 580];
    let mut carts = [0u64; 152];
    let mut messages = [0u64; 56];
    let mut lines = [0u64; 2250];
    let mut texts = [0u8; 256];
    let mut store = no_store();
    run_over(
        from,
        to,
        &mut stations,
        &mut carts,
        &mut messages,
        &mut lines,
        &mut texts,
        &mut store,
        products::kit_bounds(),
    )
}
