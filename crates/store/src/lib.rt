// THE STORE of the long texts: "Long texts lie in one store of 4,096 octets. A deleted message's octets are free again, and texts are moved together when
// the free octets suffice but lie apart." Which octets are free is not kept: it is read off the rows of the held messages.
#![tactic(auto)]

ghost use Rattle.std.specs.Prelude.{◌≡◌, ◌++◌, ◌+◌, ◌*◌, ◌≤◌, leb, length, take, drop};
ghost use Rattle.std.proofs.Math.Seq.{paste};
ghost use Rattle.protocol.specs.Claims.{True, test, is, when, all};
ghost use Rattle.messages.specs.View.{width, HasRoom, rooms_in};
ghost use Rattle.store.specs.Texts.{is_stored, HasParts, text_of};
ghost use Rattle.store.specs.Layout.{long, size, within, apart, text_rule, layout_rule, taken_by, used_in, end_of};
ghost use Rattle.store.specs.Moved.{Laid, Filled, begin_from, lowest_from, Moved, Made};

// WHERE A TEXT LIES

// Does the text of room m lie in the store: is its message held, and the text long?
fn is_stored(messages: &[u64], m: usize) -> bool
    requires { HasRoom messages.now m }
    ensures { result ≡ is_stored (rooms_in messages.now) m }
{
    let waiting = messages::waiting_of(messages, m);
    let n = messages::length_of(messages, m) as usize;
    waiting != 0 && products::TEXT < n
}

// THE FORM TEST OF THE STORE: "a written yes-or-no test of the floor alone"

// No longer than a long text, and within the store.
fn lies_within(messages: &[u64], m: usize) -> bool
    requires { HasRoom messages.now m }
    ensures { result ≡ test (within (rooms_in messages.now) m) }
{
    let n = messages::length_of(messages, m) as usize;
    if products::LONG < n {
        return false;
    }
    messages::offset_of(messages, m) as usize <= products::STORE - n
}

// The text of room k is not in the store, or apart from that of room m, which is.
fn is_clear(messages: &[u64], k: usize, m: usize) -> bool
    requires has_room { HasRoom messages.now k × HasRoom messages.now m }
    requires fact { True (within (rooms_in messages.now) m) }
    requires fact_2 { True (when (is (is_stored (rooms_in messages.now) k)) (within (rooms_in messages.now) k)) }
    ensures { result ≡ test (when (is (is_stored (rooms_in messages.now) k)) (apart (rooms_in messages.now) k m)) }
{
    if !is_stored(messages, k) {
        return true;
    }
    let other = messages::offset_of(messages, k);
    let own = messages::offset_of(messages, m);
    if other + messages::length_of(messages, k) <= own {
        return true;
    }
    own + messages::length_of(messages, m) <= other
}

// So are those of all rooms before m.
fn is_clear_before(messages: &[u64], m: usize) -> bool
    requires has_room { HasRoom messages.now m }
    requires fact { True (within (rooms_in messages.now) m) }
    requires fact_2 { True (all m (λ k. when (is (is_stored (rooms_in messages.now) k)) (within (rooms_in messages.now) k))) }
    ensures { result ≡ test (all m (λ k. when (is (is_stored (rooms_in messages.now) k)) (apart (rooms_in messages.now) k m))) }
{
    for k in 0..m {
        if !is_clear(messages, k, m) {
            return false;
        }
    }
    true
}

// The text of room m lies right, as those of the rooms before it do.
fn lies_right(messages: &[u64], m: usize) -> bool
    requires has_room { HasRoom messages.now m }
    requires fact { True (layout_rule m (rooms_in messages.now)) }
    ensures { result ≡ test (text_rule (rooms_in messages.now) m) }
{
    if !is_stored(messages, m) {
        return true;
    }
    if !lies_within(messages, m) {
        return false;
    }
    is_clear_before(messages, m)
}

// All of them lie right. Where no text is long that is one look at each room, and else two long texts are compared once.
pub fn texts_lie_right(messages: &[u64], held: usize) -> bool
    requires { length messages.now ≡ held * width }
    ensures { result ≡ test (layout_rule held (rooms_in messages.now)) }
{
    for m in 0..held {
        if !lies_right(messages, m) {
            return false;
        }
    }
    true
}

// THE OCTETS TAKEN

// Those of the text of room m.
fn taken_by(messages: &[u64], m: usize) -> usize
    requires { HasRoom messages.now m }
    ensures { result ≡ taken_by (rooms_in messages.now) m }
{
    if !is_stored(messages, m) {
        return 0;
    }
    messages::length_of(messages, m) as usize
}

// Where the text of room m ends, if it lies in the store.
fn end_of(messages: &[u64], m: usize) -> usize
    requires has_room { HasRoom messages.now m }
    requires fact { True (when (is (is_stored (rooms_in messages.now) m)) (within (rooms_in messages.now) m)) }
    ensures { result ≡ end_of (rooms_in messages.now) m }
{
    if !is_stored(messages, m) {
        return 0;
    }
    messages::offset_of(messages, m) as usize + messages::length_of(messages, m) as usize
}

// What the texts take: how many octets together, and where the last one ends.
#[derive(Clone, Copy)]
pub struct Filling {
    pub octets: usize,
    pub end: usize,
}

// Both of all texts, by one pass over the rooms.
pub fn filling_of(messages: &[u64], held: usize) -> Filling
    requires { Laid held messages.now }
    ensures { Filled held (rooms_in messages.now) result }
{
    let mut octets: usize = 0;
    let mut end: usize = 0;
    for m in 0..held {
        octets += taken_by(messages, m);
        end = end.max(end_of(messages, m));
    }
    Filling { octets, end }
}

// "27 free octets in the store, counted together, fewer than the length" is no: the free octets need not lie in one piece.
pub fn has_room(messages: &[u64], held: usize, n: usize) -> bool
    requires { Laid held messages.now × (n ≤ long) }
    ensures { result ≡ leb (used_in held (rooms_in messages.now) + n) size }
{
    let filling = filling_of(messages, held);
    filling.octets + n <= products::STORE
}

// MOVING

// Where the text of room m begins, if it lies in the store at or behind `from`; else the end of the store.
fn begin_from(messages: &[u64], from: usize, m: usize) -> usize
    requires { HasRoom messages.now m }
    ensures { result ≡ begin_from (rooms_in messages.now) from m }
{
    if !is_stored(messages, m) {
        return products::STORE;
    }
    let begin = messages::offset_of(messages, m) as usize;
    if begin < from {
        return products::STORE;
    }
    begin
}

// The room of the first text at or behind `from`, if there is one.
fn lowest_from(messages: &[u64], held: usize, from: usize) -> Option<usize>
    requires { length messages.now ≡ held * width }
    ensures { result ≡ lowest_from held (rooms_in messages.now) from }
{
    let mut room = None;
    let mut least = products::STORE;
    for m in 0..held {
        let begin = begin_from(messages, from, m);
        if begin < least {
            least = begin;
            room = Some(m);
        }
    }
    room
}

// n octets from `from` on, moved down to `to`; the two parts may overlap.
fn move_down(store: &mut [u8], from: usize, to: usize, n: usize)
    requires { (to ≤ from) × (from + n ≤ length store.old) }
    ensures store_after { store.new ≡ paste store.old to (drop from store.old) n }
    ensures store_len_unchanged { length store.new ≡ length store.old }
{
    store.copy_within(from..from + n, to);
}

// All texts, from the lowest on, each down to the end of those that were moved before it. Where they end then is answered.
fn move_together(messages: &mut [u64], store: &mut [u8], held: usize) -> usize
    requires { Laid held messages.old × (length store.old ≡ size) }
    ensures value { result ≡ used_in held (rooms_in messages.old) }
    ensures moved { Moved held messages.old store.old messages.new store.new }
{
    let mut to: usize = 0;
    while let Some(m) = lowest_from(messages, held, to) {
        let from = messages::offset_of(messages, m) as usize;
        let n = messages::length_of(messages, m) as usize;
        move_down(store, from, to, n);
        messages::put_offset(messages, m, to as u64);
        to += n;
    }
    to
}

// A NEW TEXT

// Room for n octets, and where: behind the last text; where the free octets there are too few, all texts are moved together first.
pub fn make_room(messages: &mut [u64], store: &mut [u8], held: usize, n: usize) -> usize
    requires { Laid held messages.old × (length store.old ≡ size) × (used_in held (rooms_in messages.old) + n ≤ size) }
    ensures { Made held n messages.old store.old messages.new store.new result }
{
    let filling = filling_of(messages, held);
    if filling.end + n <= products::STORE {
        return filling.end;
    }
    move_together(messages, store, held)
}

// A text is written from `offset` on.
pub fn put_text(store: &mut [u8], offset: usize, text: &[u8])
    requires { offset + length text.now ≤ length store.old }
    ensures store_after { store.new ≡ paste store.old offset text.now (length text.now) }
    ensures store_len_unchanged { length store.new ≡ length store.old }
{
    let end = offset + text.len();
    octet_parts::copy(text, &mut store[offset..end]);
}

// READING

// n octets from `at` on.
fn part(octets: &[u8], at: usize, n: usize) -> &[u8]
    requires { at + n ≤ length octets.now }
    ensures { result.now ≡ take n (drop at octets.now) }
{
    let end = at + n;
    &octets[at..end]
}

// "lends back that text's own part of the short table or of the long store": the text of room m. Of a free room it is "the empty part at the front of
// the short table".
pub fn text_of<'a>(messages: &[u64], texts: &'a [u8], store: &'a [u8], m: usize) -> &'a [u8]
    requires { HasParts messages.now texts.now store.now m }
    ensures { result.now ≡ text_of texts.now store.now (rooms_in messages.now) m }
{
    if messages::waiting_of(messages, m) == 0 {
        return part(texts, 0, 0);
    }
    let n = messages::length_of(messages, m) as usize;
    if n <= products::TEXT {
        return part(texts, m * products::TEXT, n);
    }
    part(store, messages::offset_of(messages, m) as usize, n)
}

// "writes the text at the front of the lent buffer and leaves the rest": the text of room m. Nothing is lent back, so that texts and store may be lent
// for different times; for a short text the store is not looked at.
pub fn copy_text(messages: &[u64], texts: &[u8], store: &[u8], m: usize, buffer: &mut [u8])
    requires { HasParts messages.now texts.now store.now m × ((rooms_in messages.now).length m ≤ length buffer.old) }
    ensures buffer_after { buffer.new ≡ text_of texts.now store.now (rooms_in messages.now) m ++ drop (length (text_of texts.now store.now (rooms_in messages.now) m)) buffer.old }
    ensures buffer_len_unchanged { length buffer.new ≡ length buffer.old }
{
    if messages::waiting_of(messages, m) == 0 {
        return;
    }
    let n = messages::length_of(messages, m) as usize;
    if n <= products::TEXT {
        octet_parts::copy(part(texts, m * products::TEXT, n), buffer);
        return;
    }
    let offset = messages::offset_of(messages, m) as usize;
    octet_parts::copy(part(store, offset, n), buffer);
}
