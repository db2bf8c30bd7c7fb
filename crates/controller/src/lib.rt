// THE CONTROLLER: the eleven events over a floor in lent memory, of the whole floor (`WholeFloor`) or of the demonstration kit (`Kit`): every step is the same, only
// the limits are the product's. Each takes any numbers and any lent parts, refuses first, "Checks run down the table; the first that applies is the answer", and
// leaves exactly the written floor. A contract `Met L L' e a` says of the lent parts before and after: the answer is the written one, the floor that they say is
// the written step's, and a refusal changed no word of them.
#![tactic(auto)]

ghost use Rattle.std.specs.Prelude.{◌≡◌, []};
ghost use Rattle.protocol.specs.Floor.{limits_of};
ghost use Rattle.protocol.specs.Events.{start, enter, send, wire, move, flag, send_group, send_long, retire};
ghost use Rattle.protocol.specs.Events as events;
ghost use Rattle.protocol.specs.ReadText.{read_refusal};
ghost use Rattle.view.specs.View.{lent, floor_in};
ghost use Rattle.refusals.specs.Numbers.{refusal_in};
ghost use Rattle.event_answers.specs.Answers.{answer_in};
ghost use Rattle.event_answers.specs.Met.{Met};
ghost use Rattle.event_answers.specs.Delivered.{Delivered};
ghost use Rattle.dispatcher.specs.Called.{QuietMet};
ghost use Rattle.reading.specs.Parts.{TextLent};

use event_answers::Answer;
use ids::{CartNumber, MessageNumber, Station};
use products::Product;
use refusals::Refusal;

// Start, of so many stations and carts: it looks at the lengths of the lent parts, at the mark and at the two numbers, "and it writes all the
// rest afresh".
pub fn start<P: Product>(
    stations: &mut [u64],
    carts: &mut [u64],
    messages: &mut [u64],
    lines: &mut [u64],
    texts: &[u8],
    store: &[u8],
    n: u64,
    k: u64,
) -> Answer
    ensures { Met (lent P.product stations.old carts.old messages.old lines.old texts.now store.now) (lent P.product stations.new carts.new messages.new lines.new texts.now store.now) (start n k) (answer_in result []) }
{
    event_start::start(
        stations,
        carts,
        messages,
        lines,
        texts,
        store,
        n,
        k,
        P::bounds(),
    )
}

// "Enter (station, cart)".
pub fn enter<P: Product>(
    stations: &mut [u64],
    carts: &mut [u64],
    messages: &[u64],
    lines: &[u64],
    texts: &[u8],
    store: &[u8],
    station: Station,
    cart: CartNumber,
) -> Answer
    ensures { Met (lent P.product stations.old carts.old messages.now lines.now texts.now store.now) (lent P.product stations.new carts.new messages.now lines.now texts.now store.now) (enter station.0 cart.0) (answer_in result []) }
{
    tested_events::enter(
        stations,
        carts,
        messages,
        lines,
        texts,
        store,
        station,
        cart,
        P::bounds(),
    )
}

// "Send (station, set, text)". A text longer than 32 octets is met before anything of the floor.
pub fn send<P: Product>(
    stations: &mut [u64],
    carts: &[u64],
    messages: &mut [u64],
    lines: &mut [u64],
    texts: &mut [u8],
    store: &[u8],
    station: Station,
    set: u64,
    text: &[u8],
) -> Answer
    ensures { Met (lent P.product stations.old carts.now messages.old lines.old texts.old store.now) (lent P.product stations.new carts.now messages.new lines.new texts.new store.now) (send station.0 set text.now) (answer_in result []) }
{
    tested_events::send(
        stations,
        carts,
        messages,
        lines,
        texts,
        store,
        station,
        set,
        text,
        P::bounds(),
    )
}

// "Wire (from, to)".
pub fn wire<P: Product>(
    stations: &mut [u64],
    carts: &mut [u64],
    messages: &mut [u64],
    lines: &mut [u64],
    texts: &[u8],
    store: &[u8],
    from: Station,
    to: Station,
) -> Answer
    ensures { Met (lent P.product stations.old carts.old messages.old lines.old texts.now store.now) (lent P.product stations.new carts.new messages.new lines.new texts.now store.now) (wire from.0 to.0) (answer_in result []) }
{
    tested_events::wire(
        stations,
        carts,
        messages,
        lines,
        texts,
        store,
        from,
        to,
        P::bounds(),
    )
}

// "Radio (station, cart)": `Delivered` says of the lent text buffer, too, what it is afterwards.
pub fn radio<P: Product>(
    stations: &mut [u64],
    carts: &mut [u64],
    messages: &[u64],
    lines: &mut [u64],
    texts: &[u8],
    store: &[u8],
    station: Station,
    cart: CartNumber,
    buffer: &mut [u8],
) -> Answer
    ensures { Delivered (lent P.product stations.old carts.old messages.now lines.old texts.now store.now) (lent P.product stations.new carts.new messages.now lines.new texts.now store.now) station.0 cart.0 result buffer.old buffer.new }
{
    tested_events::radio(
        stations,
        carts,
        messages,
        lines,
        texts,
        store,
        station,
        cart,
        buffer,
        P::bounds(),
    )
}

// "Move (cart, to)".
pub fn move_cart<P: Product>(
    stations: &[u64],
    carts: &mut [u64],
    messages: &[u64],
    lines: &mut [u64],
    texts: &[u8],
    store: &[u8],
    cart: CartNumber,
    to: Station,
) -> Answer
    ensures { Met (lent P.product stations.now carts.old messages.now lines.old texts.now store.now) (lent P.product stations.now carts.new messages.now lines.new texts.now store.now) (move cart.0 to.0) (answer_in result []) }
{
    tested_events::move_cart(
        stations,
        carts,
        messages,
        lines,
        texts,
        store,
        cart,
        to,
        P::bounds(),
    )
}

// "A cart counts as steady from its entry until told": the cart is told steady, or not.
pub fn flag_cart<P: Product>(
    stations: &[u64],
    carts: &mut [u64],
    messages: &[u64],
    lines: &[u64],
    texts: &[u8],
    store: &[u8],
    cart: CartNumber,
    steady: bool,
) -> Answer
    ensures { Met (lent P.product stations.now carts.old messages.now lines.now texts.now store.now) (lent P.product stations.now carts.new messages.now lines.now texts.now store.now) (flag cart.0 steady) (answer_in result []) }
{
    tested_events::flag_cart(
        stations,
        carts,
        messages,
        lines,
        texts,
        store,
        cart,
        steady,
        P::bounds(),
    )
}

// "Kind 7 carries a group number .. and the set; an empty set undefines the group".
pub fn define_group<P: Product>(
    stations: &mut [u64],
    carts: &[u64],
    messages: &[u64],
    lines: &[u64],
    texts: &[u8],
    store: &[u8],
    group: u64,
    set: u64,
) -> Answer
    ensures { Met (lent P.product stations.old carts.now messages.now lines.now texts.now store.now) (lent P.product stations.new carts.now messages.now lines.now texts.now store.now) (events.group group set) (answer_in result []) }
{
    tested_events::define_group(
        stations,
        carts,
        messages,
        lines,
        texts,
        store,
        group,
        set,
        P::bounds(),
    )
}

// "Kind 8 .. sends to the members as they are at that send".
pub fn send_group<P: Product>(
    stations: &mut [u64],
    carts: &[u64],
    messages: &mut [u64],
    lines: &mut [u64],
    texts: &mut [u8],
    store: &[u8],
    station: Station,
    group: u64,
    text: &[u8],
) -> Answer
    ensures { Met (lent P.product stations.old carts.now messages.old lines.old texts.old store.now) (lent P.product stations.new carts.now messages.new lines.new texts.new store.now) (send_group station.0 group text.now) (answer_in result []) }
{
    tested_events::send_group(
        stations,
        carts,
        messages,
        lines,
        texts,
        store,
        station,
        group,
        text,
        P::bounds(),
    )
}

// "Kind 9 is a send whose text has 33 to 512 octets". A text of another length is met before anything of the floor.
pub fn send_long<P: Product>(
    stations: &mut [u64],
    carts: &[u64],
    messages: &mut [u64],
    lines: &mut [u64],
    texts: &[u8],
    store: &mut [u8],
    station: Station,
    set: u64,
    text: &[u8],
) -> Answer
    ensures { Met (lent P.product stations.old carts.now messages.old lines.old texts.now store.old) (lent P.product stations.new carts.now messages.new lines.new texts.now store.new) (send_long station.0 set text.now) (answer_in result []) }
{
    tested_events::send_long(
        stations,
        carts,
        messages,
        lines,
        texts,
        store,
        station,
        set,
        text,
        P::bounds(),
    )
}

// "Kind 10 carries a cart and retires it: the number becomes outside, leaves every group". "It may enter again, with all next numbers 0 and steady."
pub fn retire<P: Product>(
    stations: &mut [u64],
    carts: &mut [u64],
    messages: &[u64],
    lines: &[u64],
    texts: &[u8],
    store: &[u8],
    cart: CartNumber,
) -> Answer
    ensures { Met (lent P.product stations.old carts.old messages.now lines.now texts.now store.now) (lent P.product stations.new carts.new messages.now lines.now texts.now store.now) (retire cart.0) (answer_in result []) }
{
    tested_events::retire(
        stations,
        carts,
        messages,
        lines,
        texts,
        store,
        cart,
        P::bounds(),
    )
}

// "Run the floor until it is quiet", with a lent text buffer: 5, "21 below 512", "after 5, before the first step", and then all steps
// that there are to be taken, wires first.
pub fn quiet<P: Product>(
    stations: &mut [u64],
    carts: &mut [u64],
    messages: &mut [u64],
    lines: &mut [u64],
    texts: &[u8],
    store: &[u8],
    buffer: &mut [u8],
) -> Result<u64, Refusal>
    ensures { QuietMet (lent P.product stations.old carts.old messages.old lines.old texts.now store.now) (lent P.product stations.new carts.new messages.new lines.new texts.now store.now) buffer.old buffer.new result }
{
    tested_events::quiet(
        stations,
        carts,
        messages,
        lines,
        texts,
        store,
        buffer,
        P::bounds(),
    )
}

// THE READING CALL: "by initiator and number, lends back that text's own part of the short table or of the long store, good until the next event; refused, it
// lends back the empty part at the front of the short table".
pub fn text_of<'a, P: Product>(
    stations: &[u64],
    carts: &[u64],
    messages: &[u64],
    lines: &[u64],
    texts: &'a [u8],
    store: &'a [u8],
    initiator: Station,
    number: MessageNumber,
) -> &'a [u8]
    ensures { TextLent (lent P.product stations.now carts.now messages.now lines.now texts.now store.now) texts.entry store.entry initiator.0 number.0 result }
{
    tested_events::text_of(
        stations,
        carts,
        messages,
        lines,
        texts,
        store,
        initiator,
        number,
        P::bounds(),
    )
}

// Why the reading call is refused, if it is: "a call beside it gives the number, 0 if not refused".
pub fn text_refusal<P: Product>(
    stations: &[u64],
    carts: &[u64],
    messages: &[u64],
    lines: &[u64],
    texts: &[u8],
    store: &[u8],
    initiator: Station,
    number: MessageNumber,
) -> Result<(), Refusal>
    ensures { refusal_in result ≡ read_refusal (limits_of P.product) (floor_in (lent P.product stations.now carts.now messages.now lines.now texts.now store.now)) initiator.0 number.0 }
{
    tested_events::text_refusal(
        stations,
        carts,
        messages,
        lines,
        texts,
        store,
        initiator,
        number,
        P::bounds(),
    )
}

#[cfg(test)]
mod tests {
    use super::*;
    use products::{Kit, WholeFloor};

    // Lengths go by the product: a floor of the kit's lengths starts as a kit, and not as the whole floor.
    #[test]
    fn starts_by_its_lengths(rt: HostRuntime) {
        let mut stations = [0u64; 580];
        let mut carts = [0u64; 152];
        let mut messages = [0u64; 56];
        let mut lines = [0u64; 2250];
        let texts = [0u8; 256];
        let store = [0u8; 4096];
        let floor = start::<WholeFloor>(
            &mut stations,
            &mut carts,
            &mut messages,
            &mut lines,
            &texts,
            &store,
            4,
            8,
        );
        assert!(rt; floor.is_err());
        let kit = start::<Kit>(
            &mut stations,
            &mut carts,
            &mut messages,
            &mut lines,
            &texts,
            &store,
            4,
            8,
        );
        assert!(rt; kit.is_ok());
    }

    // Where nothing is lent, each call is refused, whatever it is handed.
    #[test]
    fn carts_without_a_floor(rt: HostRuntime) {
        let here = Station(0);
        let cart = CartNumber(0);
        assert!(rt; enter::<Kit>(&mut [], &mut [], &[], &[], &[], &[], here, cart).is_err());
        assert!(rt; move_cart::<Kit>(&[], &mut [], &[], &mut [], &[], &[], cart, here).is_err());
        assert!(rt; flag_cart::<Kit>(&[], &mut [], &[], &[], &[], &[], cart, true).is_err());
        assert!(rt; retire::<Kit>(&mut [], &mut [], &[], &[], &[], &[], cart).is_err());
        assert!(rt; define_group::<Kit>(&mut [], &[], &[], &[], &[], &[], 0, 1).is_err());
    }

    #[test]
    fn messages_without_a_floor(rt: HostRuntime) {
        let here = Station(0);
        let cart = CartNumber(0);
        assert!(rt;
            send::<Kit>(
                &mut [],
                &[],
                &mut [],
                &mut [],
                &mut [],
                &[],
                here,
                1,
                b"stop"
            )
            .is_err()
        );
        assert!(rt;
            send_group::<Kit>(
                &mut [],
                &[],
                &mut [],
                &mut [],
                &mut [],
                &[],
                here,
                0,
                b"stop"
            )
            .is_err()
        );
        assert!(rt;
            send_long::<Kit>(
                &mut [],
                &[],
                &mut [],
                &mut [],
                &[],
                &mut [],
                here,
                1,
                &[0u8; 33]
            )
            .is_err()
        );
        assert!(rt; wire::<Kit>(&mut [], &mut [], &mut [], &mut [], &[], &[], here, here).is_err());
        assert!(rt;
            radio::<Kit>(
                &mut [],
                &mut [],
                &[],
                &mut [],
                &[],
                &[],
                here,
                cart,
                &mut []
            )
            .is_err()
        );
        assert!(rt; quiet::<Kit>(&mut [], &mut [], &mut [], &mut [], &[], &[], &mut []).is_err());
    }

    #[test]
    fn texts_without_a_floor(rt: HostRuntime) {
        let number = MessageNumber(0);
        assert_eq!(rt;
            text_of::<Kit>(&[], &[], &[], &[], &[], &[], Station(0), number).len(),
            0
        );
        assert!(rt; text_refusal::<Kit>(&[], &[], &[], &[], &[], &[], Station(0), number).is_err());
    }
}
