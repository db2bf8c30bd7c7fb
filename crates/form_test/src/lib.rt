// THE FORM TEST of the lent floor: "The form rule is a written yes-or-no test of the floor alone, the lengths of its lent parts included."
// Any words, of any number, may be asked about. The limits are the caller's.
#![tactic(auto)]

ghost use Rattle.std.specs.Prelude.{◌≡◌};
ghost use Rattle.protocol.specs.Floor.{Product, limits_of};
ghost use Rattle.protocol.specs.Form.{passes_form};
ghost use Rattle.products.specs.Numbers.{Fits, NumbersOf};
ghost use Rattle.view.specs.View.{lent, floor_in, lengths_in};

use products::Bounds;

// "a lent part of the floor has the wrong length" is no.
pub fn lengths_ok(
    stations: &[u64],
    carts: &[u64],
    messages: &[u64],
    lines: &[u64],
    texts: &[u8],
    store: &[u8],
    bounds: Bounds,
) -> bool
    requires { Fits bounds }
    ensures { (P : Product) → NumbersOf P bounds → result ≡ lengths_in (lent P stations.now carts.now messages.now lines.now texts.now store.now) }
{
    let n = bounds.stations as usize;
    let k = bounds.carts as usize;
    let held = bounds.held;
    // a held message has at most n multicasts, n deletes and k carts in ack lists on the lines, and a cart one record of its hand-off
    let each = n + n + k;
    let records = held * each + k;
    if stations.len() != 116 + n * 116
        || carts.len() != k * 19
        || messages.len() != held * 7
        || lines.len() != 1842 + records * 3
        || texts.len() != held * 32
    {
        return false;
    }
    store.len() == products::STORE
}

// The lent floor passes the form rule. The lengths make the other parts safe to ask, and an unstarted floor ends it at once. The lines come
// last, since their records are told by the tables: one walk is for their chains and for what their records say.
pub fn passes(
    stations: &[u64],
    carts: &[u64],
    messages: &[u64],
    lines: &[u64],
    texts: &[u8],
    store: &[u8],
    bounds: Bounds,
) -> bool
    requires { Fits bounds }
    ensures { (P : Product) → NumbersOf P bounds → result ≡ passes_form (limits_of P) (floor_in (lent P stations.now carts.now messages.now lines.now texts.now store.now)) }
{
    // each returns by itself: in a chain of `&&` the proof would have to name flags that the source does not have
    if !lengths_ok(stations, carts, messages, lines, texts, store, bounds) {
        return false;
    }
    if !form_tables::tables_pass(stations, carts, messages, bounds) {
        return false;
    }
    if !form_groups::groups_pass(stations, carts) {
        return false;
    }
    form_lines::lines_pass(stations, carts, messages, lines, bounds.stations)
}
