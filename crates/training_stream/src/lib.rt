// THE STREAM OF THE TRAINING BENCH: frames from a reader, the lines of the lists' heads to a writer. The floor's parts are lent as one, so that few slices
// are lent to one function.
#![tactic(auto)]

ghost use Rattle.std.specs.Prelude.{◌≡◌, ℕ, ◌<◌, length, take, get_or};
ghost use Rattle.event_answers.specs.Met.{Ready};
ghost use Rattle.frame_lines.specs.Lines.{Tabled};
ghost use Rattle.training_calls.specs.Gone.{Gone};
ghost use Rattle.frame_run.specs.CanRun.{Unstarted};
ghost use Rattle.frame_stream.specs.declared.State.TheVariants.{Runs};
ghost use Rattle.frame_stream.specs.Feed.{state_number, Inside, stream_of};
ghost use Rattle.protocol.specs.PlainLists.{plain_unstarted};
ghost use Rattle.view.specs.View.{floor_in};
ghost use Rattle.lists.specs.View.{lent_lists, lists_in};
ghost use Rattle.lists.specs.Calls.{ListsReady};
ghost use Rattle.training_stream.specs.Memory.{lent_in};
ghost use Rattle.training_stream.specs.Feeds.{BenchMade, BenchRan, Benched};

use frame_run::Progress;
use frame_stream::{Ending, Feed, State};
use std::io::{Read, Write};

// The lent parts of a floor.
#[derive(Clone, Copy)]
pub struct FloorMemory {
    stations: [u64; 1972],
    carts: [u64; 1216],
    messages: [u64; 224],
    lines: [u64; 11250],
    texts: [u8; 1024],
    store: [u8; 4096],
}

// The frames of a piece, run over the floor, and how far: their calls are in the table.
fn run_floor(
    input: &[u8],
    calls: &mut [u64],
    floor: &mut FloorMemory,
    numbers: &[u64],
    last: bool,
) -> Progress
    requires { Ready (lent_in floor.old) × Tabled numbers.now × (length calls.old ≡ 5120) }
    ensures gone { Gone input.now last (lent_in floor.old) (lent_in floor.new) calls.new result }
    ensures calls_len_unchanged { length calls.new ≡ length calls.old }
{
    training_calls::take_frames(
        input,
        calls,
        &mut floor.stations,
        &mut floor.carts,
        &mut floor.messages,
        &mut floor.lines,
        &mut floor.texts,
        &mut floor.store,
        products::floor_bounds(),
        numbers,
        last,
    )
}

// The frames that are there: over the floor, then their calls to the lists, and the lines of the takes.
fn run_piece<W: Write>(
    to: &mut W,
    input: &[u8],
    output: &mut [u8],
    calls: &mut [u64],
    floor: &mut FloorMemory,
    counts: &mut [u64],
    sends: &mut [u64],
    octets: &mut [u8],
    numbers: &[u64],
    f: Feed,
) -> Feed
    requires ready { Ready (lent_in floor.old) × ListsReady (lent_lists counts.old sends.old octets.old) × Tabled numbers.now }
    requires inside { Inside (length input.now) f × (f.state ≡ Runs) × (f.index < 9223372036854775808) × (length input.now ≡ 65536) × (length output.old ≡ 65536) × (length calls.old ≡ 5120) }
    ensures ready_2 { Ready (lent_in floor.new) × ListsReady (lent_lists counts.new sends.new octets.new) × BenchMade (stream_of input.now (lent_in floor.old) f) (stream_of input.now (lent_in floor.new) result) (lists_in (lent_lists counts.old sends.old octets.old)) (lists_in (lent_lists counts.new sends.new octets.new)) (take result.handed output.new) }
    ensures inside_2 { Inside (length input.now) result }
    ensures output_len_unchanged { (length output.new ≡ length output.old) × (length calls.new ≡ length calls.old) }
{
    let at = f.at;
    let have = f.have;
    let p = run_floor(&input[at..have], calls, floor, numbers, f.last);
    let n = training_lists::make_calls(
        counts,
        sends,
        octets,
        &input[at..have],
        calls,
        p.frames,
        output,
        numbers,
        f.index,
    );
    let handed = frame_stream::hand_on(to, &output[..n]);
    frame_stream::after_run(f, p, handed)
}

// ONE TURN of the stream: a read where more input is wanted, else a run of the frames that are there.
fn turn<R: Read, W: Write>(
    from: &mut R,
    to: &mut W,
    input: &mut [u8],
    output: &mut [u8],
    calls: &mut [u64],
    floor: &mut FloorMemory,
    counts: &mut [u64],
    sends: &mut [u64],
    octets: &mut [u8],
    numbers: &[u64],
    f: Feed,
) -> Feed
    requires ready { Ready (lent_in floor.old) × ListsReady (lent_lists counts.old sends.old octets.old) × Tabled numbers.now }
    requires inside { Inside (length input.old) f × (state_number f.state < 2) × (f.index < 9223372036854775808) × (length input.old ≡ 65536) × (length output.old ≡ 65536) × (length calls.old ≡ 5120) }
    ensures ready_2 { Ready (lent_in floor.new) × ListsReady (lent_lists counts.new sends.new octets.new) × BenchMade (stream_of input.old (lent_in floor.old) f) (stream_of input.new (lent_in floor.new) result) (lists_in (lent_lists counts.old sends.old octets.old)) (lists_in (lent_lists counts.new sends.new octets.new)) (take result.handed output.new) }
    ensures inside_2 { Inside (length input.new) result }
    ensures input_len_unchanged { (length input.new ≡ length input.old) × (length output.new ≡ length output.old) × (length calls.new ≡ length calls.old) }
{
    match f.state {
        State::Wants => frame_stream::more(from, input, f),
        _ => run_piece(
            to, input, output, calls, floor, counts, sends, octets, numbers, f,
        ),
    }
}

// All of the input, from a floor and lists that are not started.
fn run_all<R: Read, W: Write>(
    from: &mut R,
    to: &mut W,
    input: &mut [u8],
    output: &mut [u8],
    calls: &mut [u64],
    floor: &mut FloorMemory,
    counts: &mut [u64],
    sends: &mut [u64],
    octets: &mut [u8],
    numbers: &[u64],
) -> Ending
    requires ready { Ready (lent_in floor.old) × ListsReady (lent_lists counts.old sends.old octets.old) × Tabled numbers.now }
    requires octets_value { (lists_in (lent_lists counts.old sends.old octets.old) ≡ plain_unstarted) × (length input.old ≡ 65536) × (length output.old ≡ 65536) × (length calls.old ≡ 5120) }
    ensures { BenchRan (floor_in (lent_in floor.old)) result }
{
    let mut f = Feed {
        at: 0,
        have: 0,
        index: 0,
        state: State::Wants,
        last: false,
        handed: 0,
    };
    // A proved loop has to end, and nothing says that the input does: so turns are counted, up to a number that no run comes to.
    for made in 0..u64::MAX {
        if !frame_stream::goes_on(u64::MAX - made, f) {
            break;
        }
        f = turn(
            from, to, input, output, calls, floor, counts, sends, octets, numbers, f,
        );
    }
    let left = f.have - f.at;
    Ending {
        frames: f.index,
        state: f.state,
        left,
    }
}

// The counts of lists that are not started.
fn no_counts() -> [u64; 21]
    ensures { (length result ≡ 21) × ((k : ℕ) → get_or result k 0 ≡ 0) }
{
    [0; 21]
}

// A floor's memory that is not started.
fn no_floor() -> FloorMemory
    ensures { Ready (lent_in result) × Unstarted (floor_in (lent_in result)) }
{
    FloorMemory {
        stations: frame_stream::no_stations(),
        carts: frame_stream::no_carts(),
        messages: frame_stream::no_messages(),
        lines: frame_stream::no_lines(),
        texts: frame_stream::no_texts(),
        store: frame_stream::no_store(),
    }
}

// The run over memory that the caller lends for the lists, which are not started. That the octets have their length, their type says.
fn run_over<R: Read, W: Write>(
    from: &mut R,
    to: &mut W,
    floor: &mut FloorMemory,
    counts: &mut [u64],
    sends: &mut [u64],
    octets: &mut [u8; list_rows::OCTETS],
) -> Ending
    requires { Ready (lent_in floor.old) × (length counts.old ≡ 21) × ((k : ℕ) → get_or counts.old k 0 ≡ 0) × (length sends.old ≡ 8192) }
    ensures { BenchRan (floor_in (lent_in floor.old)) result }
{
    let mut input = io::large_buffer();
    let mut output = io::large_buffer();
    let mut calls = [0u64; training_calls::CALLS];
    let numbers = frame_run::all_numbers();
    run_all(
        from,
        to,
        &mut input,
        &mut output,
        &mut calls,
        floor,
        counts,
        sends,
        octets,
        &numbers,
    )
}

// THE TRAINING BENCH: frames from a reader, over a floor and lists of its own, and the lines of the lists' heads to a writer. What it hands on is the
// written `plain_run` of its input.
pub fn run<R: Read, W: Write>(from: &mut R, to: &mut W) -> Ending
    ensures { Benched result }
{
    let mut counts = no_counts();
    let mut sends = [0u64; list_rows::SENDS];
    let mut octets = [0u8; list_rows::OCTETS];
    let mut floor = no_floor();
    run_over(from, to, &mut floor, &mut counts, &mut sends, &mut octets)
}
