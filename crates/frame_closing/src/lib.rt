// A RUN AND ITS CLOSING: "reads frames as floor does, prints as floor does, and at the end of the input runs the floor until it is quiet and prints one
// line more". The run is `frame_stream`'s and the quiet floor is `dispatcher`'s; here is the line, and when it is printed.
#![tactic(auto)]

ghost use Rattle.std.specs.Prelude.{◌≡◌, ◌≤◌, length, take};
ghost use Rattle.protocol.specs.Folds.{count};
ghost use Rattle.protocol.specs.Floor.{whole_floor, limits};
ghost use Rattle.protocol.specs.Quiet.{turned_away, quiet_after};
ghost use Rattle.protocol.specs.Closing.{quiet_word, closing_line};
ghost use Rattle.refusals.specs.Numbers.{number_of};
ghost use Rattle.messages.specs.View.{HasRoom};
ghost use Rattle.view.specs.View.{lent, floor_in};
ghost use Rattle.frame_lines.specs.Lines.{Wrote};
ghost use Rattle.event_answers.specs.Met.{Ready};
ghost use Rattle.frame_closing.specs.Closed.{longest_closing, answer_line, is_taken, at_end, last_line, after_line, Closed};

use frame_stream::{Ending, Handed, State};
use refusals::Refusal;
use std::io::{Read, Write};

// The longest line: the word, two numbers of at most twenty digits, each with a blank before it, and the line end.
const LONGEST: usize = 5 + 2 * (1 + 20) + 1;

// Does some station wait for a message in the room?
fn is_taken(messages: &[u64], m: usize) -> bool
    requires { HasRoom messages.now m }
    ensures { result ≡ is_taken messages.now m }
{
    messages::waiting_of(messages, m) != 0
}

// "how many messages are then held"
fn held_messages(messages: &[u64]) -> u64
    requires { length messages.now ≡ 224 }
    ensures { result ≡ count 32 (is_taken messages.now) }
{
    let mut held: u64 = 0;
    for m in 0..products::ROOMS {
        held += u64::from(is_taken(messages, m));
    }
    held
}

// The word that the line begins with.
fn put_quiet(line: &mut [u8]) -> usize
    requires { longest_closing ≤ length line.old }
    ensures { Wrote 5 quiet_word line.old line.new 0 result }
{
    line[0..5].copy_from_slice(b"quiet");
    5
}

// The line of a floor that was run until it is quiet.
fn put_steps(line: &mut [u8], steps: u64, held: u64) -> usize
    requires { longest_closing ≤ length line.old }
    ensures { Wrote longest_closing (answer_line (quiet_after steps) held) line.old line.new 0 result }
{
    let word = put_quiet(line);
    let fields = frame_lines::put_two_fields(line, word, steps, held);
    line[fields] = b'\n';
    fields + 1
}

// The line of one that could not be: its refusal.
fn put_refused(line: &mut [u8], refusal: Refusal) -> usize
    requires { longest_closing ≤ length line.old }
    ensures { Wrote longest_closing (answer_line (turned_away (number_of refusal)) 0) line.old line.new 0 result }
{
    let word = put_quiet(line);
    frame_lines::end_refused(line, word, refusal.number())
}

// The floor is run until it is quiet, and the line is written. A run's floor passes the form rule if it is started, so it is not tested again.
fn put_line(
    line: &mut [u8],
    stations: &mut [u64],
    carts: &mut [u64],
    messages: &mut [u64],
    lines: &mut [u64],
    texts: &[u8],
    store: &[u8],
) -> usize
    requires { Ready (lent whole_floor stations.old carts.old messages.old lines.old texts.now store.now) × (longest_closing ≤ length line.old) }
    ensures { Wrote longest_closing (closing_line limits (floor_in (lent whole_floor stations.old carts.old messages.old lines.old texts.now store.now))) line.old line.new 0 result }
{
    if !stations::is_started(stations) {
        return put_refused(line, Refusal::NotReady);
    }
    let mut buffer = [0u8; products::LONG];
    let steps = dispatcher::run_until_quiet(
        stations,
        carts,
        messages,
        lines,
        texts,
        store,
        &mut buffer,
    );
    put_steps(line, steps, held_messages(messages))
}

// Did the run come to the end of its input? It did not where a frame was refused, which is then left, nor where a read or a write failed.
fn at_end(run: Ending) -> bool
    ensures { result ≡ at_end run }
{
    match run.state {
        State::Over => run.left == 0,
        _ => false,
    }
}

// The line behind those of the run, if there is one.
fn hand_line<W: Write>(
    to: &mut W,
    run: Ending,
    line: &mut [u8],
    stations: &mut [u64],
    carts: &mut [u64],
    messages: &mut [u64],
    lines: &mut [u64],
    texts: &[u8],
    store: &[u8],
) -> Handed
    requires { Ready (lent whole_floor stations.old carts.old messages.old lines.old texts.now store.now) × (longest_closing ≤ length line.old) }
    ensures { (take result.size line.new ≡ last_line run (floor_in (lent whole_floor stations.old carts.old messages.old lines.old texts.now store.now))) × (result.size ≤ length line.new) }
{
    if !at_end(run) {
        return Handed {
            size: 0,
            accepted: true,
        };
    }
    let n = put_line(line, stations, carts, messages, lines, texts, store);
    frame_stream::hand_on(to, &line[..n])
}

// How the run and the line behind it came out.
fn after_line(run: Ending, handed: Handed) -> Ending
    ensures { result ≡ after_line run handed }
{
    if handed.accepted {
        return run;
    }
    Ending {
        frames: run.frames,
        state: State::Failed,
        left: run.left,
    }
}

// THE RUN OF ONE INPUT AND ITS CLOSING: frames from a reader, lines to a writer, over a floor of its own; then the line of the floor that is
// left. What is handed on together is the printed closing.
pub fn close<R: Read, W: Write>(from: &mut R, to: &mut W) -> Ending
    ensures { Closed result }
{
    let mut stations = frame_stream::no_stations();
    let mut carts = frame_stream::no_carts();
    let mut messages = frame_stream::no_messages();
    let mut lines = frame_stream::no_lines();
    let mut texts = frame_stream::no_texts();
    let mut store = frame_stream::no_store();
    let run = frame_stream::run_over(
        from,
        to,
        &mut stations,
        &mut carts,
        &mut messages,
        &mut lines,
        &mut texts,
        &mut store,
        products::floor_bounds(),
    );
    let mut line = [0u8; LONGEST];
    let handed = hand_line(
        to,
        run,
        &mut line,
        &mut stations,
        &mut carts,
        &mut messages,
        &mut lines,
        &texts,
        &store,
    );
    after_line(run, handed)
}
