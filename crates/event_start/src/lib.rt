// START with the caller's limits.
#![tactic(auto)]

ghost use Rattle.std.specs.Prelude.{◌≡◌, []};
ghost use Rattle.protocol.specs.Floor.{Limits, Product};
ghost use Rattle.protocol.specs.Events.{start};
ghost use Rattle.protocol.specs.Refusals.{wrong_size};
ghost use Rattle.products.specs.Numbers.{Fits, NumbersOf};
ghost use Rattle.view.specs.View.{lent};
ghost use Rattle.event_answers.specs.Answers.{answer_in};
ghost use Rattle.event_answers.specs.Met.{Met};

use event_answers::{Accepted, Answer, Outcome};
use products::Bounds;
use refusals::Refusal;

// 7: stations not 1 to as many as there may be, or carts not.
fn wrong_size(n: u64, k: u64, bounds: Bounds) -> bool
    ensures { (M : Limits) → M.stations ≡ bounds.stations → M.carts ≡ bounds.carts → result ≡ wrong_size M n k }
{
    n == 0 || bounds.stations < n || k == 0 || bounds.carts < k
}

// Start, of n stations and k carts: it looks at the lengths of the lent parts, at the mark and at the two numbers, "and it writes all the rest
// afresh".
pub fn start(
    stations: &mut [u64],
    carts: &mut [u64],
    messages: &mut [u64],
    lines: &mut [u64],
    texts: &[u8],
    store: &[u8],
    n: u64,
    k: u64,
    bounds: Bounds,
) -> Answer
    requires { Fits bounds }
    ensures { (P : Product) → NumbersOf P bounds → Met (lent P stations.old carts.old messages.old lines.old texts.now store.now) (lent P stations.new carts.new messages.new lines.new texts.now store.now) (start n k) (answer_in result []) }
{
    if !form_test::lengths_ok(stations, carts, messages, lines, texts, store, bounds) {
        return Err(Refusal::NotReady);
    }
    if stations::mark_of(stations) == stations::STARTED {
        return Err(Refusal::AlreadyStarted);
    }
    if wrong_size(n, k, bounds) {
        return Err(Refusal::WrongSize);
    }
    wired_send::start_floor(stations, carts, messages, lines, n, k);
    Ok(Accepted {
        outcome: Outcome::Started(n, k),
        effect: reports::nothing(),
    })
}
