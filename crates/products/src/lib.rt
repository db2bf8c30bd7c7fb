// THE PRODUCTS: "a second caller of the same steps with its own limits". The floor and the kit run the same code, and only these numbers differ.
#![tactic(auto)]

ghost use Rattle.protocol.specs.Floor.{whole_floor, kit};
ghost use Rattle.protocol.specs.Floor as floor;
ghost use Rattle.products.specs.Numbers.{Fits, NumbersOf};

// What rows and words have places for is the same in every product: a row of next numbers, one for each initiator; the rooms for held messages that
// a station keeps words for; "text 0 to 32 octets", "33 to 512 octets", and "one store of 4,096 octets".
pub const INITIATORS: usize = 16;

pub const ROOMS: usize = 32;

pub const TEXT: usize = 32;

pub const LONG: usize = 512;

pub const STORE: usize = 4096;

// How many stations and carts a floor may have, how many messages may be held, and the last number of a message.
#[derive(Clone, Copy)]
pub struct Bounds {
    pub stations: u64,
    pub carts: u64,
    pub held: usize,
    pub last: u32,
}

// The floor: "Stations 1 to 16", "Carts 1 to 64", "At most 32 held messages", "the last number being 4,294,967,294".
pub fn floor_bounds() -> Bounds
    ensures { Fits result × NumbersOf whole_floor result }
{
    Bounds {
        stations: 16,
        carts: 64,
        held: 32,
        last: 4294967294,
    }
}

// The demonstration kit: "at most 4 stations, 8 carts and 8 held messages"; "The kit stays at 65,534".
pub fn kit_bounds() -> Bounds
    ensures { Fits result × NumbersOf kit result }
{
    Bounds {
        stations: 4,
        carts: 8,
        held: 8,
        last: 65534,
    }
}

// A PRODUCT, for code that is the same for each: which one it is, and its limits.
pub trait Product {
    ghost product: { floor.Product };

    fn bounds() -> Bounds
        ensures { Fits result × NumbersOf product result };
}

// The floor.
pub struct WholeFloor;

impl Product for WholeFloor {
    ghost product = { whole_floor };

    fn bounds() -> Bounds {
        floor_bounds()
    }
}

// The demonstration kit.
pub struct Kit;

impl Product for Kit {
    ghost product = { kit };

    fn bounds() -> Bounds {
        kit_bounds()
    }
}
