// THE REFUSALS: "Checks run down the table; the first that applies is the answer". Each line of the table is a case, and its number is what is printed and what
// callers of other languages are told.
#![tactic(auto)]

ghost use Rattle.std.specs.Prelude.{◌≡◌};
ghost use Rattle.refusals.specs.Numbers.{number_of};

// Why a frame or an event is refused.
#[derive(Clone, Copy, Debug, PartialEq, Eq)]
pub enum Refusal {
    // 1: "cut short", a frame or its text.
    CutShort,
    // 2: a kind that there is not.
    NoSuchKind,
    // 3: "a field not listed for the kind is not zero", or a flag above 1.
    StrayField,
    // 4: a text that is too long; of a long send also one that is too short.
    WrongLength,
    // 5: "not started, or the lent floor breaks the form rule"; of a start, "a lent part has the wrong length".
    NotReady,
    // 6: a start: "already started".
    AlreadyStarted,
    // 7: a start: stations or carts not from 1 to as many as there may be.
    WrongSize,
    // 8: a station that is not on the floor.
    NoSuchStation,
    // 9: a cart that is not on the floor.
    NoSuchCart,
    // 10: an enter: the cart is "now entered".
    AlreadyEntered,
    // 11: a send: "empty set".
    EmptySet,
    // 12: "a named cart not now entered".
    NamedOutside,
    // 13: "the last number is used".
    NumbersUsed,
    // 14: as many messages are held as may be.
    RoomsTaken,
    // 15: a wire step: "the line is empty".
    EmptyLine,
    // 16: a radio step: "the cart is not at this station".
    NotAtStation,
    // 17: a radio step: "queue empty, or its head entry lacks the cart".
    NotAtHead,
    // 18: a move, a flag, a retirement: the cart is "not now entered".
    Outside,
    // 19: a move, a retirement: "leaving or travelling".
    OnItsWay,
    // 20: a move: "already there".
    AlreadyThere,
    // 21: "lent text buffer shorter than the text".
    ShortBuffer,
    // 24: "empty text".
    EmptyText,
    // 25: a radio step: "not steady".
    Unsteady,
    // 26: "group not defined or above 15".
    NoSuchGroup,
    // 27: "free octets in the store, counted together, fewer than the length".
    StoreFull,
    // 28: a text is read whose "message is not held".
    NotHeld,
    // 29: a retirement: "a held message names the cart".
    StillNamed,
    // 30: lists kept by hand: a send "whose entries would make more than 2,048".
    TooManyEntries,
    // 31: lists kept by hand: the list is empty.
    EmptyList,
}

impl Refusal {
    // Its number in the table.
    pub fn number(self) -> u64
        ensures { result ≡ number_of self }
    {
        match self {
            Refusal::CutShort => 1,
            Refusal::NoSuchKind => 2,
            Refusal::StrayField => 3,
            Refusal::WrongLength => 4,
            Refusal::NotReady => 5,
            Refusal::AlreadyStarted => 6,
            Refusal::WrongSize => 7,
            Refusal::NoSuchStation => 8,
            Refusal::NoSuchCart => 9,
            Refusal::AlreadyEntered => 10,
            Refusal::EmptySet => 11,
            Refusal::NamedOutside => 12,
            Refusal::NumbersUsed => 13,
            Refusal::RoomsTaken => 14,
            Refusal::EmptyLine => 15,
            Refusal::NotAtStation => 16,
            Refusal::NotAtHead => 17,
            Refusal::Outside => 18,
            Refusal::OnItsWay => 19,
            Refusal::AlreadyThere => 20,
            Refusal::ShortBuffer => 21,
            Refusal::EmptyText => 24,
            Refusal::Unsteady => 25,
            Refusal::NoSuchGroup => 26,
            Refusal::StoreFull => 27,
            Refusal::NotHeld => 28,
            Refusal::StillNamed => 29,
            Refusal::TooManyEntries => 30,
            Refusal::EmptyList => 31,
        }
    }
}
