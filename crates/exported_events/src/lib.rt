// The events without their form test, under C names, for bench/events, which measures them beside the whole events of `mekhturia`. Each asks for a floor that
// events can go on with, and for eight words to put its answer into: this crate is for measuring alone, and asks for them by `requires`.
#![tactic(auto)]

ghost use Rattle.std.specs.Prelude.{not, [], ◌≤◌, ◌<◌, eqb, length};
ghost use Rattle.protocol.specs.Floor.{whole_floor};
ghost use Rattle.protocol.specs.Events.{enter, send, wire, move, flag, send_group, send_long, retire};
ghost use Rattle.protocol.specs.Events as events;
ghost use Rattle.view.specs.View.{lent};
ghost use Rattle.event_answers.specs.Met.{Ready};
ghost use Rattle.answer_words.specs.Words.{Answered, AnsweredText};

use ids::{CartNumber, Station};

// "Enter (station, cart)", on a floor that events can go on with. Here and below numbers and flags are bare words, since that is the C interface.
#[unsafe(no_mangle)]
pub extern "C" fn mekhturia_step_enter(
    stations: &mut [u64],
    carts: &mut [u64],
    messages: &[u64],
    lines: &[u64],
    texts: &[u8],
    store: &[u8],
    station: u64,
    cart: u64,
    out: &mut [u64],
)
    requires ready { Ready (lent whole_floor stations.old carts.old messages.now lines.now texts.now store.now) }
    requires in_bounds { 8 ≤ length out.old }
    ensures { Answered (lent whole_floor stations.old carts.old messages.now lines.now texts.now store.now) (lent whole_floor stations.new carts.new messages.now lines.now texts.now store.now) (enter station cart) [] out.old out.new }
{
    let answer = event_carts::enter(
        stations,
        carts,
        messages,
        lines,
        texts,
        store,
        Station(station),
        CartNumber(cart),
    );
    answer_words::put_answer_words(out, answer);
}

// "Send (station, set, text)", on a floor that events can go on with.
#[unsafe(no_mangle)]
pub extern "C" fn mekhturia_step_send(
    stations: &mut [u64],
    carts: &[u64],
    messages: &mut [u64],
    lines: &mut [u64],
    texts: &mut [u8],
    store: &[u8],
    station: u64,
    set: u64,
    text: &[u8],
    out: &mut [u64],
)
    requires ready { Ready (lent whole_floor stations.old carts.now messages.old lines.old texts.old store.now) }
    requires text_len_bound { length text.now ≤ 32 }
    requires in_bounds { 8 ≤ length out.old }
    ensures { Answered (lent whole_floor stations.old carts.now messages.old lines.old texts.old store.now) (lent whole_floor stations.new carts.now messages.new lines.new texts.new store.now) (send station set text.now) [] out.old out.new }
{
    let answer = event_send::send(
        stations,
        carts,
        messages,
        lines,
        texts,
        store,
        Station(station),
        set,
        text,
        products::floor_bounds(),
    );
    answer_words::put_answer_words(out, answer);
}

// "Wire (from, to)", on a floor that events can go on with.
#[unsafe(no_mangle)]
pub extern "C" fn mekhturia_step_wire(
    stations: &mut [u64],
    carts: &mut [u64],
    messages: &mut [u64],
    lines: &mut [u64],
    texts: &[u8],
    store: &[u8],
    from: u64,
    to: u64,
    out: &mut [u64],
)
    requires ready { Ready (lent whole_floor stations.old carts.old messages.old lines.old texts.now store.now) }
    requires in_bounds { 8 ≤ length out.old }
    ensures { Answered (lent whole_floor stations.old carts.old messages.old lines.old texts.now store.now) (lent whole_floor stations.new carts.new messages.new lines.new texts.now store.now) (wire from to) [] out.old out.new }
{
    let answer = event_wire::wire(
        stations,
        carts,
        messages,
        lines,
        texts,
        store,
        Station(from),
        Station(to),
    );
    answer_words::put_answer_words(out, answer);
}

// "Radio (station, cart)", on a floor that events can go on with.
#[unsafe(no_mangle)]
pub extern "C" fn mekhturia_step_radio(
    stations: &mut [u64],
    carts: &mut [u64],
    messages: &[u64],
    lines: &mut [u64],
    texts: &[u8],
    store: &[u8],
    station: u64,
    cart: u64,
    buffer: &mut [u8],
    out: &mut [u64],
)
    requires ready { Ready (lent whole_floor stations.old carts.old messages.now lines.old texts.now store.now) }
    requires in_bounds { 8 ≤ length out.old }
    ensures { AnsweredText (lent whole_floor stations.old carts.old messages.now lines.old texts.now store.now) (lent whole_floor stations.new carts.new messages.now lines.new texts.now store.now) station cart buffer.old buffer.new out.old out.new }
{
    let answer = event_radio::radio_into(
        stations,
        carts,
        messages,
        lines,
        texts,
        store,
        Station(station),
        CartNumber(cart),
        buffer,
    );
    answer_words::put_answer_words(out, answer);
}

// "Move (cart, to)", on a floor that events can go on with.
#[unsafe(no_mangle)]
pub extern "C" fn mekhturia_step_move(
    stations: &[u64],
    carts: &mut [u64],
    messages: &[u64],
    lines: &mut [u64],
    texts: &[u8],
    store: &[u8],
    cart: u64,
    to: u64,
    out: &mut [u64],
)
    requires ready { Ready (lent whole_floor stations.now carts.old messages.now lines.old texts.now store.now) }
    requires in_bounds { 8 ≤ length out.old }
    ensures { Answered (lent whole_floor stations.now carts.old messages.now lines.old texts.now store.now) (lent whole_floor stations.now carts.new messages.now lines.new texts.now store.now) (move cart to) [] out.old out.new }
{
    let answer = event_carts::move_cart(
        stations,
        carts,
        messages,
        lines,
        texts,
        store,
        CartNumber(cart),
        Station(to),
    );
    answer_words::put_answer_words(out, answer);
}

// The cart is told steady, or not (0), on a floor that events can go on with.
#[unsafe(no_mangle)]
pub extern "C" fn mekhturia_step_flag(
    stations: &[u64],
    carts: &mut [u64],
    messages: &[u64],
    lines: &[u64],
    texts: &[u8],
    store: &[u8],
    cart: u64,
    steady: u64,
    out: &mut [u64],
)
    requires ready { Ready (lent whole_floor stations.now carts.old messages.now lines.now texts.now store.now) }
    requires in_bounds { 8 ≤ length out.old }
    ensures { Answered (lent whole_floor stations.now carts.old messages.now lines.now texts.now store.now) (lent whole_floor stations.now carts.new messages.now lines.now texts.now store.now) (flag cart (not (eqb steady 0))) [] out.old out.new }
{
    let answer = event_carts::flag_cart(
        stations,
        carts,
        messages,
        lines,
        texts,
        store,
        CartNumber(cart),
        steady != 0,
    );
    answer_words::put_answer_words(out, answer);
}

// The same of a group.
#[unsafe(no_mangle)]
pub extern "C" fn mekhturia_step_group(
    stations: &mut [u64],
    carts: &[u64],
    messages: &[u64],
    lines: &[u64],
    texts: &[u8],
    store: &[u8],
    group: u64,
    set: u64,
    out: &mut [u64],
)
    requires ready { Ready (lent whole_floor stations.old carts.now messages.now lines.now texts.now store.now) }
    requires in_bounds { 8 ≤ length out.old }
    ensures { Answered (lent whole_floor stations.old carts.now messages.now lines.now texts.now store.now) (lent whole_floor stations.new carts.now messages.now lines.now texts.now store.now) (events.group group set) [] out.old out.new }
{
    let answer = event_groups::define_group(
        stations, carts, messages, lines, texts, store, group, set,
    );
    answer_words::put_answer_words(out, answer);
}

// The same of a send to a group.
#[unsafe(no_mangle)]
pub extern "C" fn mekhturia_step_send_group(
    stations: &mut [u64],
    carts: &[u64],
    messages: &mut [u64],
    lines: &mut [u64],
    texts: &mut [u8],
    store: &[u8],
    station: u64,
    group: u64,
    text: &[u8],
    out: &mut [u64],
)
    requires ready { Ready (lent whole_floor stations.old carts.now messages.old lines.old texts.old store.now) }
    requires text_len_bound { length text.now ≤ 32 }
    requires in_bounds { 8 ≤ length out.old }
    ensures { Answered (lent whole_floor stations.old carts.now messages.old lines.old texts.old store.now) (lent whole_floor stations.new carts.now messages.new lines.new texts.new store.now) (send_group station group text.now) [] out.old out.new }
{
    let answer = event_send::send_group(
        stations,
        carts,
        messages,
        lines,
        texts,
        store,
        Station(station),
        group,
        text,
        products::floor_bounds(),
    );
    answer_words::put_answer_words(out, answer);
}

// The same of a send of a long text.
#[unsafe(no_mangle)]
pub extern "C" fn mekhturia_step_send_long(
    stations: &mut [u64],
    carts: &[u64],
    messages: &mut [u64],
    lines: &mut [u64],
    texts: &[u8],
    store: &mut [u8],
    station: u64,
    set: u64,
    text: &[u8],
    out: &mut [u64],
)
    requires ready { Ready (lent whole_floor stations.old carts.now messages.old lines.old texts.now store.old) }
    requires in_bounds { (32 < length text.now) × (length text.now ≤ 512) }
    requires in_bounds_2 { 8 ≤ length out.old }
    ensures { Answered (lent whole_floor stations.old carts.now messages.old lines.old texts.now store.old) (lent whole_floor stations.new carts.now messages.new lines.new texts.now store.new) (send_long station set text.now) [] out.old out.new }
{
    let answer = event_send::send_long(
        stations,
        carts,
        messages,
        lines,
        texts,
        store,
        Station(station),
        set,
        text,
        products::floor_bounds(),
    );
    answer_words::put_answer_words(out, answer);
}

// "Kind 10 carries a cart and retires it", on a floor that events can go on with.
#[unsafe(no_mangle)]
pub extern "C" fn mekhturia_step_retire(
    stations: &mut [u64],
    carts: &mut [u64],
    messages: &[u64],
    lines: &[u64],
    texts: &[u8],
    store: &[u8],
    cart: u64,
    out: &mut [u64],
)
    requires ready { Ready (lent whole_floor stations.old carts.old messages.now lines.now texts.now store.now) }
    requires in_bounds { 8 ≤ length out.old }
    ensures { Answered (lent whole_floor stations.old carts.old messages.now lines.now texts.now store.now) (lent whole_floor stations.new carts.new messages.now lines.now texts.now store.now) (retire cart) [] out.old out.new }
{
    let answer = event_carts::retire(
        stations,
        carts,
        messages,
        lines,
        texts,
        store,
        CartNumber(cart),
    );
    answer_words::put_answer_words(out, answer);
}
