// The numbers of the floor: "A station number, a cart number and a message number are counted apart; one never stands where another
// belongs". Each is a type of its own, so that a function which takes one takes no other.
#![tactic(auto)]

ghost use Rattle.std.specs.Prelude.{◌≡◌, ◌+◌, ◌<◌};

// A station, "numbered from 0". It also names the initiator of a message.
#[derive(Clone, Copy, Debug, PartialEq, Eq, PartialOrd, Ord)]
pub struct Station(pub u64);

// A cart, "numbered from 0".
#[derive(Clone, Copy, Debug, PartialEq, Eq, PartialOrd, Ord)]
pub struct CartNumber(pub u64);

// A message among those of its initiator: "Each station numbers its own from 0".
#[derive(Clone, Copy, Debug, PartialEq, Eq, PartialOrd, Ord)]
pub struct MessageNumber(pub u64);

impl MessageNumber {
    // The number of the station's next message: "rising by one".
    pub fn next(self) -> MessageNumber
        requires { self.0 < 18446744073709551615 }
        ensures { result.0 ≡ self.0 + 1 }
    {
        MessageNumber(self.0 + 1)
    }
}
