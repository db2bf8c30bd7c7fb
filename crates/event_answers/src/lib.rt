// WHAT AN EVENT ANSWERS, and what the line of an answer says.
#![tactic(auto)]

ghost use Rattle.std.specs.Prelude.{◌≡◌};
ghost use Rattle.event_answers.specs.Answers.{values, report_of, text_size, told_of};

use ids::{CartNumber, MessageNumber, Station};
use refusals::Refusal;
use reports::{Effect, Report};

// What an accepted event did; specs/Answers sets out 01's kind and values for each case.
#[derive(Clone, Copy)]
pub enum Outcome {
    // How many stations, and how many carts.
    Started(u64, u64),
    // The station, the cart.
    Entered(Station, CartNumber),
    // The station, the message's number.
    Sent(Station, MessageNumber),
    // A multicast was handled: its number.
    Buffered(MessageNumber),
    // An ack list was: its number.
    Acknowledged(MessageNumber),
    // A delete was: its number.
    Deleted(MessageNumber),
    // A deregister was: the cart.
    Deregistered(CartNumber),
    // A register was: the cart.
    Registered(CartNumber),
    // The initiator, the number, and how many octets the text has.
    Received(Station, MessageNumber, usize),
    // The cart, and where to.
    Moved(CartNumber, Station),
    // The cart, and whether it is steady.
    Flagged(CartNumber, bool),
    // The group, and how many members it has.
    Grouped(u64, u64),
    // The station, the number of the message that went to a group's members.
    SentToGroup(Station, MessageNumber),
    // The station, the number of the message that has a long text.
    SentLong(Station, MessageNumber),
    // The cart that went back.
    Retired(CartNumber),
}

// An event that was accepted: what was done, and what the step counted.
#[derive(Clone, Copy)]
pub struct Accepted {
    pub outcome: Outcome,
    pub effect: Effect,
}

// The answer to an event. "A refusal gives its number alone."
pub type Answer = Result<Accepted, Refusal>;

// What is told of an accepted event: what its line says, and how many octets of text it adds.
#[derive(Clone, Copy)]
pub struct Told {
    pub report: Report,
    pub size: usize,
}

// A report of these values.
fn report(kind: u64, a: u64, b: u64, effect: Effect) -> Report
    ensures { result ≡ values kind a b effect }
{
    Report { kind, a, b, effect }
}

impl Accepted {
    // "kind, a, b, p, w" of what was done.
    fn report(self) -> Report
        ensures { result ≡ report_of self.outcome self.effect }
    {
        let effect = self.effect;
        match self.outcome {
            Outcome::Started(n, k) => report(0, n, k, effect),
            Outcome::Entered(station, cart) => report(1, station.0, cart.0, effect),
            Outcome::Sent(station, number) => report(2, station.0, number.0, effect),
            Outcome::Buffered(number) => report(3, 1, number.0, effect),
            Outcome::Acknowledged(number) => report(3, 2, number.0, effect),
            Outcome::Deleted(number) => report(3, 3, number.0, effect),
            Outcome::Deregistered(cart) => report(3, 4, cart.0, effect),
            Outcome::Registered(cart) => report(3, 5, cart.0, effect),
            Outcome::Received(initiator, number, _) => report(4, initiator.0, number.0, effect),
            Outcome::Moved(cart, to) => report(5, cart.0, to.0, effect),
            Outcome::Flagged(cart, steady) => report(6, cart.0, u64::from(steady), effect),
            Outcome::Grouped(group, members) => report(7, group, members, effect),
            Outcome::SentToGroup(station, number) => report(8, station.0, number.0, effect),
            Outcome::SentLong(station, number) => report(9, station.0, number.0, effect),
            Outcome::Retired(cart) => report(10, cart.0, 0, effect),
        }
    }

    // How many octets of text it adds.
    fn text_size(self) -> usize
        ensures { result ≡ text_size self.outcome }
    {
        match self.outcome {
            Outcome::Received(_, _, size) => size,
            _ => 0,
        }
    }

    // Whoever prints it or hands it on asks this once, and not once more which of all cases it was.
    pub fn told(self) -> Told
        ensures { result ≡ told_of self }
    {
        Told {
            report: self.report(),
            size: self.text_size(),
        }
    }
}
