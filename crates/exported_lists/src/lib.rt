// The lists kept by hand under C names, for measuring and for tests in other languages. An enum cannot cross, so what a reply says crosses as
// numbers.
#![tactic(auto)]

ghost use Rattle.std.specs.Prelude.{◌≡◌};
ghost use Rattle.protocol.specs.PlainLists.{plain_start, plain_send};
ghost use Rattle.lists.specs.View.{lent_lists};
ghost use Rattle.lists.specs.Calls.{ListsReady};
ghost use Rattle.exported_lists.specs.Said.{said_of, CallSaid, TakeSaid};

use ids::{CartNumber, Station};
use lists::Reply;
use refusals::Refusal;

// A reply: the refusal, or 0; the message's number; how many octets its text has. A `Result` does not cross to C.
#[repr(C)]
#[derive(Clone, Copy)]
pub struct Said {
    pub refusal: u64,
    pub number: u64,
    pub size: u64,
}

fn said_of(reply: Result<Reply, Refusal>) -> Said
    ensures { result ≡ said_of reply }
{
    match reply {
        Err(refusal) => Said {
            refusal: refusal.number(),
            number: 0,
            size: 0,
        },
        Ok(Reply::Begun) => Said {
            refusal: 0,
            number: 0,
            size: 0,
        },
        Ok(Reply::Sent(number)) => Said {
            refusal: 0,
            number: number.0,
            size: 0,
        },
        Ok(Reply::Took(number, size)) => Said {
            refusal: 0,
            number: number.0,
            size: size as u64,
        },
    }
}

// A start.
#[unsafe(no_mangle)]
pub extern "C" fn mekhturia_lists_start(
    counts: &mut [u64],
    sends: &[u64],
    octets: &[u8],
    n: u64,
    k: u64,
) -> Said
    ensures { CallSaid (lent_lists counts.old sends.now octets.now) (lent_lists counts.new sends.now octets.now) (plain_start n k) result }
{
    said_of(tested_lists::start(counts, sends, octets, n, k))
}

// A send.
#[unsafe(no_mangle)]
pub extern "C" fn mekhturia_lists_send(
    counts: &mut [u64],
    sends: &mut [u64],
    octets: &mut [u8],
    station: u64,
    set: u64,
    text: &[u8],
) -> Said
    ensures { CallSaid (lent_lists counts.old sends.old octets.old) (lent_lists counts.new sends.new octets.new) (plain_send station set text.now) result }
{
    said_of(tested_lists::send(counts, sends, octets, Station(station), set, text))
}

// A take.
#[unsafe(no_mangle)]
pub extern "C" fn mekhturia_lists_take(
    counts: &mut [u64],
    sends: &mut [u64],
    octets: &[u8],
    station: u64,
    cart: u64,
    buffer: &mut [u8; list_rows::TEXT],
) -> Said
    ensures { TakeSaid (lent_lists counts.old sends.old octets.now) (lent_lists counts.new sends.new octets.now) station cart result buffer.old buffer.new }
{
    said_of(tested_lists::take(
        counts,
        sends,
        octets,
        Station(station),
        CartNumber(cart),
        buffer,
    ))
}

// A send without the form test.
#[unsafe(no_mangle)]
pub extern "C" fn mekhturia_lists_step_send(
    counts: &mut [u64],
    sends: &mut [u64],
    octets: &mut [u8],
    station: u64,
    set: u64,
    text: &[u8],
) -> Said
    requires { ListsReady (lent_lists counts.old sends.old octets.old) }
    ensures { CallSaid (lent_lists counts.old sends.old octets.old) (lent_lists counts.new sends.new octets.new) (plain_send station set text.now) result }
{
    said_of(lists::send(counts, sends, octets, Station(station), set, text))
}

// A take without the form test.
#[unsafe(no_mangle)]
pub extern "C" fn mekhturia_lists_step_take(
    counts: &mut [u64],
    sends: &mut [u64],
    octets: &[u8],
    station: u64,
    cart: u64,
    buffer: &mut [u8; list_rows::TEXT],
) -> Said
    requires { ListsReady (lent_lists counts.old sends.old octets.now) }
    ensures { TakeSaid (lent_lists counts.old sends.old octets.now) (lent_lists counts.new sends.new octets.now) station cart result buffer.old buffer.new }
{
    said_of(lists::take(
        counts,
        sends,
        octets,
        Station(station),
        CartNumber(cart),
        buffer,
    ))
}
