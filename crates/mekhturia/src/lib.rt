// THE LIBRARY FOR OTHER LANGUAGES: every public call of the floor and of the demonstration kit under one C name, with the product as its first argument: 0 the
// floor, 1 the kit; and the run over frames. None asks anything of its caller: none has a `requires`. A lent slice crosses as its address and its length. Each
// call is lent words for its answer, eight at least; lent fewer, or asked for a product that there is not, it touches nothing, and its status says so.
// include/mekhturia.h is the same for a C compiler.
#![tactic(auto)]

ghost use Rattle.std.specs.Prelude.{◌≡◌, not, ◌<◌, ◌≤◌, eqb, length};
ghost use Rattle.protocol.specs.Events.{start, enter, send, wire, move, flag, send_group, send_long, retire};
ghost use Rattle.protocol.specs.Events as events;
ghost use Rattle.products.specs.Numbers.{Fits, NumbersOf};
ghost use Rattle.view.specs.View.{lent};
ghost use Rattle.mekhturia.specs.Status.{product_numbered, status_of, EventByStatus, RadioByStatus, QuietByStatus, ReadByStatus};
ghost use Rattle.mekhturia.specs.Frames.{frames_status, frame_words, FramesByStatus};

use frame_run::Progress;
use ids::{CartNumber, MessageNumber, Station};
use products::Bounds;

// The status of a call: its answer is in the lent words. Statuses and products are numbers here, since that is the C interface.
const ANSWERED: u64 = 0;

// The lent words are too few for its answer, and nothing was touched.
const TOO_FEW_WORDS: u64 = 1;

// There is no such product, and nothing was touched.
const NO_SUCH_PRODUCT: u64 = 2;

// The index of the first frame, or the number of octets, is from 2^63 on, and nothing was touched.
const TOO_FAR: u64 = 3;

// 2^63: more octets than any memory has. Indices below it stay below 2^64 to the end of the piece.
const FAR: u64 = 9223372036854775808;

// The numbers by which the products go here.
const FLOOR: u64 = 0;

const KIT: u64 = 1;

// The status, asked for before anything is touched.
fn status_of(product: u64, out: &[u64]) -> u64
    ensures { result ≡ status_of product out.now }
{
    if answer_words::too_few(out) {
        return TOO_FEW_WORDS;
    }
    if KIT < product {
        return NO_SUCH_PRODUCT;
    }
    ANSWERED
}

// The limits of the product.
fn bounds_of(product: u64) -> Bounds
    ensures { Fits result × NumbersOf (product_numbered product) result × (0 < result.held) }
{
    if product == FLOOR {
        return products::floor_bounds();
    }
    products::kit_bounds()
}

// Start, of so many stations and carts.
#[unsafe(no_mangle)]
pub extern "C" fn mekhturia_start(
    product: u64,
    stations: &mut [u64],
    carts: &mut [u64],
    messages: &mut [u64],
    lines: &mut [u64],
    texts: &[u8],
    store: &[u8],
    n: u64,
    k: u64,
    out: &mut [u64],
) -> u64
    ensures { EventByStatus result product (lent (product_numbered product) stations.old carts.old messages.old lines.old texts.now store.now) (lent (product_numbered product) stations.new carts.new messages.new lines.new texts.now store.now) (start n k) out.old out.new }
{
    let status = status_of(product, out);
    if status != ANSWERED {
        return status;
    }
    let bounds = bounds_of(product);
    let answer = event_start::start(stations, carts, messages, lines, texts, store, n, k, bounds);
    answer_words::put_answer_words(out, answer);
    ANSWERED
}

// "Enter (station, cart)".
#[unsafe(no_mangle)]
pub extern "C" fn mekhturia_enter(
    product: u64,
    stations: &mut [u64],
    carts: &mut [u64],
    messages: &[u64],
    lines: &[u64],
    texts: &[u8],
    store: &[u8],
    station: u64,
    cart: u64,
    out: &mut [u64],
) -> u64
    ensures { EventByStatus result product (lent (product_numbered product) stations.old carts.old messages.now lines.now texts.now store.now) (lent (product_numbered product) stations.new carts.new messages.now lines.now texts.now store.now) (enter station cart) out.old out.new }
{
    let status = status_of(product, out);
    if status != ANSWERED {
        return status;
    }
    let bounds = bounds_of(product);
    let answer = tested_events::enter(
        stations,
        carts,
        messages,
        lines,
        texts,
        store,
        Station(station),
        CartNumber(cart),
        bounds,
    );
    answer_words::put_answer_words(out, answer);
    ANSWERED
}

// "Send (station, set, text)".
#[unsafe(no_mangle)]
pub extern "C" fn mekhturia_send(
    product: u64,
    stations: &mut [u64],
    carts: &[u64],
    messages: &mut [u64],
    lines: &mut [u64],
    texts: &mut [u8],
    store: &[u8],
    station: u64,
    set: u64,
    text: &[u8],
    out: &mut [u64],
) -> u64
    ensures { EventByStatus result product (lent (product_numbered product) stations.old carts.now messages.old lines.old texts.old store.now) (lent (product_numbered product) stations.new carts.now messages.new lines.new texts.new store.now) (send station set text.now) out.old out.new }
{
    let status = status_of(product, out);
    if status != ANSWERED {
        return status;
    }
    let bounds = bounds_of(product);
    let answer = tested_events::send(
        stations,
        carts,
        messages,
        lines,
        texts,
        store,
        Station(station),
        set,
        text,
        bounds,
    );
    answer_words::put_answer_words(out, answer);
    ANSWERED
}

// "Wire (from, to)".
#[unsafe(no_mangle)]
pub extern "C" fn mekhturia_wire(
    product: u64,
    stations: &mut [u64],
    carts: &mut [u64],
    messages: &mut [u64],
    lines: &mut [u64],
    texts: &[u8],
    store: &[u8],
    from: u64,
    to: u64,
    out: &mut [u64],
) -> u64
    ensures { EventByStatus result product (lent (product_numbered product) stations.old carts.old messages.old lines.old texts.now store.now) (lent (product_numbered product) stations.new carts.new messages.new lines.new texts.now store.now) (wire from to) out.old out.new }
{
    let status = status_of(product, out);
    if status != ANSWERED {
        return status;
    }
    let bounds = bounds_of(product);
    let answer = tested_events::wire(
        stations,
        carts,
        messages,
        lines,
        texts,
        store,
        Station(from),
        Station(to),
        bounds,
    );
    answer_words::put_answer_words(out, answer);
    ANSWERED
}

// "Radio (station, cart)".
#[unsafe(no_mangle)]
pub extern "C" fn mekhturia_radio(
    product: u64,
    stations: &mut [u64],
    carts: &mut [u64],
    messages: &[u64],
    lines: &mut [u64],
    texts: &[u8],
    store: &[u8],
    station: u64,
    cart: u64,
    buffer: &mut [u8],
    out: &mut [u64],
) -> u64
    ensures { RadioByStatus result product (lent (product_numbered product) stations.old carts.old messages.now lines.old texts.now store.now) (lent (product_numbered product) stations.new carts.new messages.now lines.new texts.now store.now) station cart buffer.old buffer.new out.old out.new }
{
    let status = status_of(product, out);
    if status != ANSWERED {
        return status;
    }
    let bounds = bounds_of(product);
    let answer = tested_events::radio(
        stations,
        carts,
        messages,
        lines,
        texts,
        store,
        Station(station),
        CartNumber(cart),
        buffer,
        bounds,
    );
    answer_words::put_answer_words(out, answer);
    ANSWERED
}

// "Move (cart, to)".
#[unsafe(no_mangle)]
pub extern "C" fn mekhturia_move(
    product: u64,
    stations: &[u64],
    carts: &mut [u64],
    messages: &[u64],
    lines: &mut [u64],
    texts: &[u8],
    store: &[u8],
    cart: u64,
    to: u64,
    out: &mut [u64],
) -> u64
    ensures { EventByStatus result product (lent (product_numbered product) stations.now carts.old messages.now lines.old texts.now store.now) (lent (product_numbered product) stations.now carts.new messages.now lines.new texts.now store.now) (move cart to) out.old out.new }
{
    let status = status_of(product, out);
    if status != ANSWERED {
        return status;
    }
    let bounds = bounds_of(product);
    let answer = tested_events::move_cart(
        stations,
        carts,
        messages,
        lines,
        texts,
        store,
        CartNumber(cart),
        Station(to),
        bounds,
    );
    answer_words::put_answer_words(out, answer);
    ANSWERED
}

// The cart is told steady, or not (0).
#[unsafe(no_mangle)]
pub extern "C" fn mekhturia_flag(
    product: u64,
    stations: &[u64],
    carts: &mut [u64],
    messages: &[u64],
    lines: &[u64],
    texts: &[u8],
    store: &[u8],
    cart: u64,
    steady: u64,
    out: &mut [u64],
) -> u64
    ensures { EventByStatus result product (lent (product_numbered product) stations.now carts.old messages.now lines.now texts.now store.now) (lent (product_numbered product) stations.now carts.new messages.now lines.now texts.now store.now) (flag cart (not (eqb steady 0))) out.old out.new }
{
    let status = status_of(product, out);
    if status != ANSWERED {
        return status;
    }
    let bounds = bounds_of(product);
    let answer = tested_events::flag_cart(
        stations,
        carts,
        messages,
        lines,
        texts,
        store,
        CartNumber(cart),
        steady != 0,
        bounds,
    );
    answer_words::put_answer_words(out, answer);
    ANSWERED
}

// "Kind 7 carries a group number .. and the set".
#[unsafe(no_mangle)]
pub extern "C" fn mekhturia_group(
    product: u64,
    stations: &mut [u64],
    carts: &[u64],
    messages: &[u64],
    lines: &[u64],
    texts: &[u8],
    store: &[u8],
    group: u64,
    set: u64,
    out: &mut [u64],
) -> u64
    ensures { EventByStatus result product (lent (product_numbered product) stations.old carts.now messages.now lines.now texts.now store.now) (lent (product_numbered product) stations.new carts.now messages.now lines.now texts.now store.now) (events.group group set) out.old out.new }
{
    let status = status_of(product, out);
    if status != ANSWERED {
        return status;
    }
    let bounds = bounds_of(product);
    let answer = tested_events::define_group(
        stations, carts, messages, lines, texts, store, group, set, bounds,
    );
    answer_words::put_answer_words(out, answer);
    ANSWERED
}

// "Kind 8 .. sends to the members as they are at that send".
#[unsafe(no_mangle)]
pub extern "C" fn mekhturia_send_group(
    product: u64,
    stations: &mut [u64],
    carts: &[u64],
    messages: &mut [u64],
    lines: &mut [u64],
    texts: &mut [u8],
    store: &[u8],
    station: u64,
    group: u64,
    text: &[u8],
    out: &mut [u64],
) -> u64
    ensures { EventByStatus result product (lent (product_numbered product) stations.old carts.now messages.old lines.old texts.old store.now) (lent (product_numbered product) stations.new carts.now messages.new lines.new texts.new store.now) (send_group station group text.now) out.old out.new }
{
    let status = status_of(product, out);
    if status != ANSWERED {
        return status;
    }
    let bounds = bounds_of(product);
    let answer = tested_events::send_group(
        stations,
        carts,
        messages,
        lines,
        texts,
        store,
        Station(station),
        group,
        text,
        bounds,
    );
    answer_words::put_answer_words(out, answer);
    ANSWERED
}

// "Kind 9 is a send whose text has 33 to 512 octets".
#[unsafe(no_mangle)]
pub extern "C" fn mekhturia_send_long(
    product: u64,
    stations: &mut [u64],
    carts: &[u64],
    messages: &mut [u64],
    lines: &mut [u64],
    texts: &[u8],
    store: &mut [u8],
    station: u64,
    set: u64,
    text: &[u8],
    out: &mut [u64],
) -> u64
    ensures { EventByStatus result product (lent (product_numbered product) stations.old carts.now messages.old lines.old texts.now store.old) (lent (product_numbered product) stations.new carts.now messages.new lines.new texts.now store.new) (send_long station set text.now) out.old out.new }
{
    let status = status_of(product, out);
    if status != ANSWERED {
        return status;
    }
    let bounds = bounds_of(product);
    let answer = tested_events::send_long(
        stations,
        carts,
        messages,
        lines,
        texts,
        store,
        Station(station),
        set,
        text,
        bounds,
    );
    answer_words::put_answer_words(out, answer);
    ANSWERED
}

// "Kind 10 carries a cart and retires it".
#[unsafe(no_mangle)]
pub extern "C" fn mekhturia_retire(
    product: u64,
    stations: &mut [u64],
    carts: &mut [u64],
    messages: &[u64],
    lines: &[u64],
    texts: &[u8],
    store: &[u8],
    cart: u64,
    out: &mut [u64],
) -> u64
    ensures { EventByStatus result product (lent (product_numbered product) stations.old carts.old messages.now lines.now texts.now store.now) (lent (product_numbered product) stations.new carts.new messages.now lines.now texts.now store.now) (retire cart) out.old out.new }
{
    let status = status_of(product, out);
    if status != ANSWERED {
        return status;
    }
    let bounds = bounds_of(product);
    let answer = tested_events::retire(
        stations,
        carts,
        messages,
        lines,
        texts,
        store,
        CartNumber(cart),
        bounds,
    );
    answer_words::put_answer_words(out, answer);
    ANSWERED
}

// "Run the floor until it is quiet", with a lent text buffer. Its answer has two words.
#[unsafe(no_mangle)]
pub extern "C" fn mekhturia_quiet(
    product: u64,
    stations: &mut [u64],
    carts: &mut [u64],
    messages: &mut [u64],
    lines: &mut [u64],
    texts: &[u8],
    store: &[u8],
    buffer: &mut [u8],
    out: &mut [u64],
) -> u64
    ensures { QuietByStatus result product (lent (product_numbered product) stations.old carts.old messages.old lines.old texts.now store.now) (lent (product_numbered product) stations.new carts.new messages.new lines.new texts.now store.now) buffer.old buffer.new out.old out.new }
{
    let status = status_of(product, out);
    if status != ANSWERED {
        return status;
    }
    let bounds = bounds_of(product);
    let quiet = tested_events::quiet(
        stations, carts, messages, lines, texts, store, buffer, bounds,
    );
    answer_words::put_quiet_words(out, quiet);
    ANSWERED
}

// THE READING CALL. A part of a lent slice cannot cross as it is, so four words say which it is: the call's number, the slice, from which octet on, and how
// many octets.
#[unsafe(no_mangle)]
pub extern "C" fn mekhturia_text(
    product: u64,
    stations: &[u64],
    carts: &[u64],
    messages: &[u64],
    lines: &[u64],
    texts: &[u8],
    store: &[u8],
    initiator: u64,
    number: u64,
    out: &mut [u64],
) -> u64
    ensures { ReadByStatus result product (lent (product_numbered product) stations.now carts.now messages.now lines.now texts.now store.now) initiator number out.old out.new }
{
    let status = status_of(product, out);
    if status != ANSWERED {
        return status;
    }
    let bounds = bounds_of(product);
    let found = tested_events::read(
        stations,
        carts,
        messages,
        lines,
        texts,
        store,
        Station(initiator),
        MessageNumber(number),
        bounds,
    );
    answer_words::put_read_words(out, found);
    ANSWERED
}

// The status of a run over frames: that of every call, and then whether its numbers are too large to go on from.
fn frames_status(product: u64, out: &[u64], index: u64, input: &[u8]) -> u64
    ensures { result ≡ frames_status product out.now index input.now }
{
    let status = status_of(product, out);
    if status != ANSWERED {
        return status;
    }
    if FAR <= index {
        return TOO_FAR;
    }
    if FAR <= input.len() as u64 {
        return TOO_FAR;
    }
    ANSWERED
}

// The words of a run over frames: why it stopped; the octets read and written; the frames.
fn put_progress(out: &mut [u64], p: Progress)
    requires { 4 ≤ length out.old }
    ensures out_after { out.new ≡ frame_words out.old p }
    ensures out_len_unchanged { length out.new ≡ length out.old }
{
    out[0] = p.state.number();
    out[1] = p.read as u64;
    out[2] = p.written as u64;
    out[3] = p.frames;
}

// FRAMES FROM ONE LENT SLICE, THEIR LINES INTO ANOTHER: the form test once, and then each frame of the piece while the output has room for its line, from the
// frame with this index on. `last` is 0 where more input may come behind the piece. Its answer has four words.
#[unsafe(no_mangle)]
pub extern "C" fn mekhturia_frames(
    product: u64,
    stations: &mut [u64],
    carts: &mut [u64],
    messages: &mut [u64],
    lines: &mut [u64],
    texts: &mut [u8],
    store: &mut [u8],
    input: &[u8],
    output: &mut [u8],
    index: u64,
    last: u64,
    out: &mut [u64],
) -> u64
    ensures { FramesByStatus result product input.now index (not (eqb last 0)) (lent (product_numbered product) stations.old carts.old messages.old lines.old texts.old store.old) (lent (product_numbered product) stations.new carts.new messages.new lines.new texts.new store.new) output.old output.new out.old out.new }
{
    let status = frames_status(product, out, index, input);
    if status != ANSWERED {
        return status;
    }
    let bounds = bounds_of(product);
    let progress = tested_run::take_frames(
        input,
        output,
        stations,
        carts,
        messages,
        lines,
        texts,
        store,
        bounds,
        index,
        last != 0,
    );
    put_progress(out, progress);
    ANSWERED
}
