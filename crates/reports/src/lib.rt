// WHAT A STEP COUNTS, and what the line of an accepted event says.
#![tactic(auto)]

ghost use Rattle.std.specs.Prelude.{◌≡◌};
ghost use Rattle.reports.specs.Effects.{nothing, putting, queueing};

// What a step counts: p, "the numbers passed over in this step", w, "the records put on lines", and q, "the largest place given in that step, 0 if no
// cart was queued". Every step answers it, and every accepted answer carries it, so that one more number is one more field here.
#[derive(Clone, Copy)]
pub struct Effect {
    pub passed: u64,
    pub records: u64,
    pub place: u64,
}

// Of a step that counts nothing.
pub fn nothing() -> Effect
    ensures { result ≡ nothing }
{
    Effect {
        passed: 0,
        records: 0,
        place: 0,
    }
}

// Of one that only puts so many records on lines.
pub fn putting(records: u64) -> Effect
    ensures { result ≡ putting records }
{
    Effect {
        passed: 0,
        records,
        place: 0,
    }
}

// Of one that only passes over so many numbers, and queues carts, the deepest at that place.
pub fn queueing(passed: u64, place: u64) -> Effect
    ensures { result ≡ queueing passed place }
{
    Effect {
        passed,
        records: 0,
        place,
    }
}

// What the line of an accepted event says: "kind, a, b, p, w", q.
#[derive(Clone, Copy)]
pub struct Report {
    pub kind: u64,
    pub a: u64,
    pub b: u64,
    pub effect: Effect,
}
