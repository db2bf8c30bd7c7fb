// WHAT A CALL FROM ANOTHER LANGUAGE IS TOLD, in lent words: an enum cannot cross as it is, so the answer of an event is eight words, that of a floor run until it
// is quiet two, and that of the reading call four.
#![tactic(auto)]

ghost use Rattle.std.specs.Prelude.{◌≡◌, ◌≤◌, ltb, length, set};
ghost use Rattle.answer_words.specs.Words.{answer_row, answer_words, quiet_words, part_row, read_words};

use event_answers::Answer;
use reading::Part;
use refusals::Refusal;

// So many words are enough for every answer.
pub const WORDS: usize = 8;

// Are they too few for an answer?
pub fn too_few(out: &[u64]) -> bool
    ensures { result ≡ ltb (length out.now) 8 }
{
    out.len() < WORDS
}

// Eight words, at the front of the lent ones, of any number of a refusal: their order and their numbers are the C interface.
pub fn put_words(
    out: &mut [u64],
    refusal: u64,
    kind: u64,
    a: u64,
    b: u64,
    p: u64,
    w: u64,
    q: u64,
    size: u64,
)
    requires { 8 ≤ length out.old }
    ensures out_after { out.new ≡ answer_row out.old refusal kind a b p w q size }
    ensures out_len_unchanged { length out.new ≡ length out.old }
{
    out[0] = refusal;
    out[1] = kind;
    out[2] = a;
    out[3] = b;
    out[4] = p;
    out[5] = w;
    out[6] = q;
    out[7] = size;
}

// The words of an answer: the refusal's number, or 0; "kind, a, b, p, w", q; how many octets of text.
// Inlined: to a function of its own an answer goes through memory, and a call under a C name takes up to a third more instructions.
#[inline]
pub fn put_answer_words(out: &mut [u64], answer: Answer)
    requires { 8 ≤ length out.old }
    ensures out_after { out.new ≡ answer_words out.old answer }
    ensures out_len_unchanged { length out.new ≡ length out.old }
{
    match answer {
        Ok(accepted) => {
            let told = accepted.told();
            let report = told.report;
            let effect = report.effect;
            put_words(
                out,
                0,
                report.kind,
                report.a,
                report.b,
                effect.passed,
                effect.records,
                effect.place,
                told.size as u64,
            );
        }
        Err(refusal) => put_words(out, refusal.number(), 0, 0, 0, 0, 0, 0, 0),
    }
}

// Two words, at the front of the lent ones: any number of a refusal, or 0, and the number of steps.
pub fn put_two(out: &mut [u64], first: u64, second: u64)
    requires { 2 ≤ length out.old }
    ensures out_after { out.new ≡ set (set out.old 0 first) 1 second }
    ensures out_len_unchanged { length out.new ≡ length out.old }
{
    out[0] = first;
    out[1] = second;
}

// The words of a floor that was run until it is quiet: the refusal's number, or 0, and the number of steps.
pub fn put_quiet_words(out: &mut [u64], quiet: Result<u64, Refusal>)
    requires { 2 ≤ length out.old }
    ensures out_after { out.new ≡ quiet_words out.old quiet }
    ensures out_len_unchanged { length out.new ≡ length out.old }
{
    match quiet {
        Ok(steps) => put_two(out, 0, steps),
        Err(refusal) => {
            let number = refusal.number();
            put_two(out, number, 0)
        }
    }
}

// Four words, at the front of the lent ones: any number of a refusal, or 0, and a part.
pub fn put_part(out: &mut [u64], refusal: u64, part: Part)
    requires { 4 ≤ length out.old }
    ensures out_after { out.new ≡ part_row out.old refusal part }
    ensures out_len_unchanged { length out.new ≡ length out.old }
{
    out[0] = refusal;
    out[1] = u64::from(part.stored);
    out[2] = part.at as u64;
    out[3] = part.octets as u64;
}

// The words of a reading call: its number, "0 if not refused"; 1 for the store, or 0 for the short table; from which octet on, and how many octets.
pub fn put_read_words(out: &mut [u64], found: Result<Part, Refusal>)
    requires { 4 ≤ length out.old }
    ensures out_after { out.new ≡ read_words out.old found }
    ensures out_len_unchanged { length out.new ≡ length out.old }
{
    match found {
        Ok(part) => put_part(out, 0, part),
        Err(refusal) => put_part(out, refusal.number(), reading::FRONT),
    }
}
