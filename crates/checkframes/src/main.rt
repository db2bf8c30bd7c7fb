// THE PROGRAM CHECKFRAMES: for each file that its arguments name, or for standard input where they name none, how many whole frames it
// begins with, and the refusal and the octet of what stands behind them. A file is read in pieces, and the memory is the same whatever its length.
#![tactic(auto)]

ghost use Rattle.std.specs.Prelude.{◌≡◌, ◌+◌, ◌≤◌, ◌<◌, length, take, IfOk};
ghost use Rattle.frame_reader.specs.Reads.{refusal_code};
ghost use Rattle.frame_reader.specs.Checks.{check_in, after};
ghost use Rattle.checkframes.specs.Progress.{state_after, Inside, Goes, Ended};

use frame_reader::Checked;
use refusals::Refusal;
use std::env::{Env, FillError};
use std::io;
use std::io::Read;

// What is to be done with a file.
#[derive(Clone, Copy, Debug, PartialEq, Eq)]
enum State {
    // More octets are wanted.
    Wants,
    // The file has ended.
    Over,
    // A frame is refused whatever follows it.
    Refused,
}

// How far a file was checked: what its octets so far come to, how many of them are kept at the front of the input for the next piece, and what is
// to be done.
#[derive(Clone, Copy)]
struct Progress {
    found: Checked,
    kept: usize,
    state: State,
}

// A check ends after this number of octets, which no file has.
const OCTETS: usize = 9223372036854775808;

// One read behind the octets that are kept, which stay: how many it brought.
fn read_behind<R: Read>(from: &mut R, input: &mut [u8], kept: usize) -> io::Result<usize>
    requires { kept ≤ length input.old }
    ensures count_in_bounds { IfOk result (λ count. kept + count ≤ length input.new) }
    ensures kept_stay { take kept input.new ≡ take kept input.old }
    ensures input_len_unchanged { length input.new ≡ length input.old }
{
    from.read(&mut input[kept..])
}

// What is to be done after a read that brought this number of octets, with what they come to.
fn state_after(count: usize, refusal: Option<Refusal>) -> State
    ensures { result ≡ state_after count (refusal_code refusal) }
{
    match refusal {
        None | Some(Refusal::CutShort) => {
            if count == 0 {
                State::Over
            } else {
                State::Wants
            }
        }
        Some(_) => State::Refused,
    }
}

// What was found, and then what was found in a piece.
fn joined(found: Checked, piece: Checked) -> Checked
    requires { (found.frames + piece.frames < 18446744073709551616) × (found.at + piece.at < 18446744073709551616) }
    ensures { check_in result ≡ after (check_in found) (check_in piece) }
{
    Checked {
        frames: found.frames + piece.frames,
        at: found.at + piece.at,
        refusal: piece.refusal,
    }
}

// One read behind the octets that are kept. The whole frames that are then there are checked, and the octets behind them kept.
fn turn<R: Read>(from: &mut R, input: &mut [u8], p: Progress) -> io::Result<Progress>
    requires { Inside input.old p × (p.found.at < 9223372036854775808) }
    ensures inside { IfOk result (λ r. Inside input.new r) }
    ensures goes { IfOk result (λ r. Goes (take p.kept input.old) (check_in p.found) (take r.kept input.new) r) }
    ensures input_len_unchanged { length input.new ≡ length input.old }
{
    let count = read_behind(from, input, p.kept)?;
    let have = p.kept + count;
    let piece = frame_reader::check(&input[..have]);
    let kept = frames::keep(input, piece.at, have);
    Ok(Progress {
        found: joined(p.found, piece),
        kept,
        state: state_after(count, piece.refusal),
    })
}

// The check of all that a reader gives, until there is nothing more to be done. A proved loop has to end, and nothing says that the file does: so turns
// are counted up to a number that no file uses up.
fn check_all<R: Read>(from: &mut R, input: &mut [u8]) -> io::Result<Progress>
    requires { length input.old ≡ 65536 }
    ensures { IfOk result (λ p. Ended p) }
{
    let mut p = Progress {
        found: Checked {
            frames: 0,
            at: 0,
            refusal: None,
        },
        kept: 0,
        state: State::Wants,
    };
    for _ in 0..u64::MAX {
        if !matches!(p.state, State::Wants) || OCTETS <= p.found.at {
            break;
        }
        p = turn(from, input, p)?;
    }
    Ok(p)
}

// A file's line: its name, how many whole frames it begins with, and that this is all, or the refusal and the octet of what stands behind them.
fn print<P: Print>(rt: &P, name: &str, found: Checked) -> io::Result<()> {
    let frames = found.frames;
    let Some(refusal) = found.refusal else {
        return println!(rt; "{name}: frames {frames}, whole");
    };
    let number = refusal.number();
    let at = found.at;
    println!(rt; "{name}: frames {frames}, refusal {number} at octet {at}")
}

// The line of a reader's octets, or why they cannot be read.
fn check_reader<P: Print + Eprint, R: Read + Drop>(rt: &P, mut from: R, name: &str) {
    let mut input = [0u8; 65536];
    match check_all(&mut from, &mut input) {
        Ok(p) => {
            let _ = print(rt, name, p.found);
        }
        Err(why) => frame_files::fail(rt, name, why),
    }
}

fn main(rt: HostRuntime) {
    let mut name = [0u8; 4096];
    if let Err(FillError::NotPresent) = rt.arg(1, &mut name) {
        check_reader(&rt, rt.stdin(), "standard input");
    }
    frame_files::for_each_file(&rt, |path, file| check_reader(&rt, file, path));
}
