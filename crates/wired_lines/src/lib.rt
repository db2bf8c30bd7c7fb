// A RECORD TO EVERY STATION: the same record goes on the line from one station to each of the first n. Two steps do it: "a multicast goes on
// the line to every station", and "a delete goes to every station". specs/ToEvery says what it leaves on the lines; proofs/EveryView, that
// on the floor it is `put (to_every n s)`, that the words lie right again, and that n records are what such a step needs room for.
#![tactic(auto)]

ghost use Rattle.std.specs.Prelude.{◌≡◌, true, ◌+◌, ◌<◌, ◌≤◌};
ghost use Rattle.lines.specs.Form.{form};
ghost use Rattle.lines.specs.Lines.{used};
ghost use Rattle.lines.specs.Words.{capacity};
ghost use Rattle.wired_lines.specs.ToEvery.{PushedToEvery};

use ids::Station;
use lines::Record;

// The record joins the line from `from` to each of the stations 0 to n - 1, at its end. The free rows are held from push to push: a word of
// them serves many.
pub fn push_to_every(lines: &mut [u64], from: Station, n: u64, said: Record)
    requires { (from.0 < 16) × (n ≤ 16) × (form lines.old ≡ true) × (used lines.old + n ≤ capacity lines.old) }
    ensures { PushedToEvery lines.old lines.new from.0 n said }
{
    let mut held = lines::hold(lines);
    for to in 0..n {
        held = lines::push_held(lines, from.0 as usize, to as usize, said, held);
    }
    lines::release(lines, held);
}
