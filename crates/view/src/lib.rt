// The words of the records on the lines. The floor that all lent parts say is in specs/View, and what each write of a part is in it in proofs/.
#![tactic(auto)]

ghost use Rattle.std.specs.Prelude.{◌≡◌, ◌<◌, eqb};
ghost use Rattle.stations.specs.View.{rooms};
ghost use Rattle.view.specs.Kinds.{number_said, kind_said};
ghost use Rattle.view.specs.Records.{kind_of, index_of, number_of, word_of, words_of};

use ids::{CartNumber, MessageNumber};
use lines::Record;

// A record's word has its kind in 3 bits, then 8 bits of index, then the number.
const INDEX: u64 = 8;

const NUMBER: u64 = 2048;

// The kinds of records: those of a message, and from Deregister on those of a cart.
#[derive(Clone, Copy, Debug, PartialEq, Eq)]
pub enum Kind {
    // 1: a message for its carts at a station.
    Multicast,
    // 2: carts that have a message.
    AckList,
    // 3: a message that all its carts have.
    Delete,
    // 4: a cart leaves a station.
    Deregister,
    // 5: a cart arrives at a station.
    Register,
}

impl Kind {
    // Its number in a record's word.
    pub fn number(self) -> u64
        ensures { result ≡ number_said self }
    {
        match self {
            Kind::Multicast => 1,
            Kind::AckList => 2,
            Kind::Delete => 3,
            Kind::Deregister => 4,
            Kind::Register => 5,
        }
    }
}

// The word of these parts.
fn word_of(kind: Kind, index: u64, number: u64) -> u64
    requires { (index < 256) × (number < 4294967296) }
    ensures { result ≡ word_of (number_said kind) index number }
{
    kind.number() + INDEX * index + NUMBER * number
}

// "multicast (1)": of the message in room m.
pub fn multicast(m: usize, number: MessageNumber) -> Record
    requires { (m < rooms) × (number.0 < 4294967296) }
    ensures { result ≡ words_of 1 m number.0 0 }
{
    Record(word_of(Kind::Multicast, m as u64, number.0), 0)
}

// "ack list (2)": of the message in room m, with its carts.
pub fn ack_list(m: usize, number: MessageNumber, carts: u64) -> Record
    requires { (m < rooms) × (number.0 < 4294967296) }
    ensures { result ≡ words_of 2 m number.0 carts }
{
    Record(word_of(Kind::AckList, m as u64, number.0), carts)
}

// "delete (3)": of the message in room m.
pub fn delete(m: usize, number: MessageNumber) -> Record
    requires { (m < rooms) × (number.0 < 4294967296) }
    ensures { result ≡ words_of 3 m number.0 0 }
{
    Record(word_of(Kind::Delete, m as u64, number.0), 0)
}

// "deregister (4)": of a cart.
pub fn deregister(cart: CartNumber) -> Record
    requires { cart.0 < 64 }
    ensures { result ≡ words_of 4 cart.0 0 0 }
{
    Record(word_of(Kind::Deregister, cart.0, 0), 0)
}

// "register (5)": of a cart. The row that it carries stands in words of its own (lines::put_register).
pub fn register(cart: CartNumber) -> Record
    requires { cart.0 < 64 }
    ensures { result ≡ words_of 5 cart.0 0 0 }
{
    Record(word_of(Kind::Register, cart.0, 0), 0)
}

// The number that a record's word has for its kind, also where it is none of the five.
pub fn kind_of(said: Record) -> u64
    ensures { result ≡ kind_of said.0 }
{
    said.0 % INDEX
}

// Which of the five a record is, if any.
pub fn kind_said(said: Record) -> Option<Kind>
    ensures { result ≡ kind_said (kind_of said.0) }
{
    match kind_of(said) {
        1 => Some(Kind::Multicast),
        2 => Some(Kind::AckList),
        3 => Some(Kind::Delete),
        4 => Some(Kind::Deregister),
        5 => Some(Kind::Register),
        _ => None,
    }
}

// Is it of this kind? For whoever asks for one kind after the other.
pub fn is_of(said: Record, kind: Kind) -> bool
    ensures { result ≡ eqb (kind_of said.0) (number_said kind) }
{
    kind_of(said) == kind.number()
}

// The room of its message, or its cart.
pub fn index_of(said: Record) -> u64
    ensures { result ≡ index_of said.0 }
{
    said.0 / INDEX % 256
}

// The number of its message.
pub fn number_of(said: Record) -> u64
    ensures { result ≡ number_of said.0 }
{
    said.0 / NUMBER
}
