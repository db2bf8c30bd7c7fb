// The carts: the record of one, and the lent table of all.
#![tactic(auto)]

ghost use Rattle.std.specs.Prelude.{◌≡◌, true, ◌<◌, length};
ghost use Rattle.protocol.specs.Folds.{list_of, update};
ghost use Rattle.carts.specs.Words.{HasRow, first_word, place_in, canonical, canonical_first};
ghost use Rattle.carts.specs.Records.{seen, greeted, departed, arrived, number_after, received, told, retired};
ghost use Rattle.carts.specs.View.{carts_in, canonical_in, no_carts, with_place, with_steady, with_next, with_row, with_cart, IsCart};

use ids::{CartNumber, MessageNumber, Station};

// "A cart is outside, at a station, leaving (it has greeted a new station, the old one has not heard), or travelling (its register is on
// a line)": leaving the first for the second, travelling from the first to the second.
#[derive(Clone, Copy, Debug, PartialEq, Eq)]
pub enum Place {
    Outside,
    At(Station),
    Leaving(Station, Station),
    Travelling(Station, Station),
}

// A cart's record: where it is, "one next number per initiator", and whether its vacuum is steady: "The flag travels with the cart through hand-offs".
#[derive(Clone, Copy)]
pub struct Cart {
    pub place: Place,
    pub next: [u64; 16],
    pub steady: bool,
}

// "A cart's record is handed in and handed back with its new state."
impl Cart {
    // The cart greets a new station; the old one has not heard.
    pub fn greet(self, to: Station) -> Cart
        ensures { result ≡ greeted self to }
    {
        match self.place {
            Place::At(from) => Cart {
                place: Place::Leaving(from, to),
                ..self
            },
            _ => self,
        }
    }

    // The old station has heard, and the cart's register goes on a line.
    pub fn depart(self) -> Cart
        ensures { result ≡ departed self }
    {
        match self.place {
            Place::Leaving(from, to) => Cart {
                place: Place::Travelling(from, to),
                ..self
            },
            _ => self,
        }
    }

    // The cart is at the station, with the row of next numbers that its register carried.
    pub fn arrive(self, station: Station, row: [u64; 16]) -> Cart
        ensures { result ≡ arrived self station row }
    {
        Cart {
            place: Place::At(station),
            next: row,
            ..self
        }
    }

    // The cart receives message n of the initiator: its next number is the one after it.
    pub fn receive(mut self, initiator: Station, n: MessageNumber) -> Cart
        ensures { result ≡ received self initiator n }
    {
        let s = initiator.0 as usize;
        if s < products::INITIATORS {
            self.next[s] = number_after(n);
        }
        self
    }

    // The cart is told steady, or not.
    pub fn told(self, steady: bool) -> Cart
        ensures { result ≡ told self steady }
    {
        Cart { steady, ..self }
    }

    // The cart goes back to the factory: it is outside, with all next numbers 0.
    pub fn retire(self) -> Cart
        ensures { result ≡ retired self }
    {
        Cart {
            place: Place::Outside,
            next: [0; 16],
            ..self
        }
    }
}

// The number after a message's.
fn number_after(n: MessageNumber) -> u64
    ensures { result ≡ number_after n.0 }
{
    n.0.saturating_add(1)
}

// A row of the lent table has this many words: three of the place, and sixteen next numbers, which begin at NEXT.
const WIDTH: usize = 19;

const NEXT: usize = 3;

// The first word is the kind of the place, one of four, and so much more for a cart that is not steady.
const UNSTEADY: u64 = 4;

// A place in words: its kind, and its stations.
#[derive(Clone, Copy)]
struct PlaceWords(u64, u64, u64);

// The place that they say.
impl From<PlaceWords> for Place {
    ghost from_gives = { λ words place. seen place ≡ place_in words.0 words.1 words.2 };

    fn from(words: PlaceWords) -> Place {
        let PlaceWords(kind, s, t) = words;
        match kind {
            1 => Place::At(Station(s)),
            2 => Place::Leaving(Station(s), Station(t)),
            3 => Place::Travelling(Station(s), Station(t)),
            _ => Place::Outside,
        }
    }
}

// The words that a place is written in.
impl From<Place> for PlaceWords {
    ghost from_gives = { λ place words. (place_in words.0 words.1 words.2 ≡ seen place) × (canonical words.0 words.1 words.2 ≡ true) × (words.0 < 4) };

    fn from(place: Place) -> PlaceWords {
        match place {
            Place::Outside => PlaceWords(0, 0, 0),
            Place::At(s) => PlaceWords(1, s.0, 0),
            Place::Leaving(s, t) => PlaceWords(2, s.0, t.0),
            Place::Travelling(s, t) => PlaceWords(3, s.0, t.0),
        }
    }
}

// The first word of a row: a kind of place, and the flag.
fn first_word(kind: u64, steady: bool) -> u64
    requires { kind < 4 }
    ensures { result ≡ first_word kind steady }
{
    if steady { kind } else { kind + UNSTEADY }
}

// Are these the words that a place is written in?
fn are_canonical(kind: u64, s: u64, t: u64) -> bool
    ensures { result ≡ canonical kind s t }
{
    match kind {
        0 => (s | t) == 0,
        1 => t == 0,
        _ => kind < 4,
    }
}

// Are these the first words of a row: a flag and a kind, and the stations of that kind?
fn first_canonical(first: u64, s: u64, t: u64) -> bool
    ensures { result ≡ canonical_first first s t }
{
    first < 2 * UNSTEADY && are_canonical(first % UNSTEADY, s, t)
}

// Where the cart is.
pub fn place_of(carts: &[u64], number: CartNumber) -> Place
    requires { HasRow carts.now number.0 }
    ensures { seen result ≡ (carts_in carts.now).place number.0 }
{
    let at = (number.0 as usize) * WIDTH;
    Place::from(PlaceWords(carts[at] % UNSTEADY, carts[at + 1], carts[at + 2]))
}

// Is the cart steady?
pub fn is_steady(carts: &[u64], number: CartNumber) -> bool
    requires { HasRow carts.now number.0 }
    ensures { result ≡ (carts_in carts.now).steady number.0 }
{
    carts[(number.0 as usize) * WIDTH] < UNSTEADY
}

// Do the cart's place and flag stand in the words that they are written in? A floor in other words breaks the form rule.
pub fn is_canonical(carts: &[u64], number: CartNumber) -> bool
    requires { HasRow carts.now number.0 }
    ensures { result ≡ canonical_in carts.now number.0 }
{
    let at = (number.0 as usize) * WIDTH;
    first_canonical(carts[at], carts[at + 1], carts[at + 2])
}

// The cart is in another place, and steady or not.
fn put_place(carts: &mut [u64], number: CartNumber, place: Place, steady: bool)
    requires { HasRow carts.old number.0 }
    ensures carts_after { carts_in carts.new ≡ with_steady (with_place (carts_in carts.old) number.0 (seen place)) number.0 steady }
    ensures carts_after_2 { canonical_in carts.new ≡ update (canonical_in carts.old) number.0 true }
    ensures carts_len_unchanged { length carts.new ≡ length carts.old }
{
    let at = (number.0 as usize) * WIDTH;
    let words = PlaceWords::from(place);
    carts[at] = first_word(words.0, steady);
    carts[at + 1] = words.1;
    carts[at + 2] = words.2;
}

// The cart's next number for an initiator.
pub fn next_of(carts: &[u64], number: CartNumber, initiator: Station) -> u64
    requires { HasRow carts.now number.0 × (initiator.0 < 16) }
    ensures { result ≡ (carts_in carts.now).next number.0 initiator.0 }
{
    carts[(number.0 as usize) * WIDTH + NEXT + initiator.0 as usize]
}

// The cart has another next number for an initiator.
pub fn put_next(carts: &mut [u64], number: CartNumber, initiator: Station, next: u64)
    requires { HasRow carts.old number.0 × (initiator.0 < 16) }
    ensures carts_after { carts_in carts.new ≡ with_next (carts_in carts.old) number.0 initiator.0 next }
    ensures carts_unchanged { canonical_in carts.new ≡ canonical_in carts.old }
    ensures carts_len_unchanged { length carts.new ≡ length carts.old }
{
    let at = (number.0 as usize) * WIDTH + NEXT + initiator.0 as usize;
    carts[at] = next;
}

// "the cart's whole row of next numbers"
pub fn row_of(carts: &[u64], number: CartNumber) -> [u64; 16]
    requires { HasRow carts.now number.0 }
    ensures { result ≡ list_of 16 ((carts_in carts.now).next number.0) }
{
    let mut row = [0u64; 16];
    for i in 0..16 {
        row[i] = next_of(carts, number, Station(i as u64));
    }
    row
}

// The cart has another row of next numbers.
pub fn put_row(carts: &mut [u64], number: CartNumber, row: [u64; 16])
    requires { HasRow carts.old number.0 }
    ensures carts_after { carts_in carts.new ≡ with_row (carts_in carts.old) number.0 row }
    ensures carts_unchanged { canonical_in carts.new ≡ canonical_in carts.old }
    ensures carts_len_unchanged { length carts.new ≡ length carts.old }
{
    for i in 0..16 {
        put_next(carts, number, Station(i as u64), row[i]);
    }
}

// The cart's record.
pub fn cart_at(carts: &[u64], number: CartNumber) -> Cart
    requires { HasRow carts.now number.0 }
    ensures { IsCart (carts_in carts.now) number.0 result }
{
    Cart {
        place: place_of(carts, number),
        next: row_of(carts, number),
        steady: is_steady(carts, number),
    }
}

// The cart has another record.
pub fn put_cart(carts: &mut [u64], number: CartNumber, cart: Cart)
    requires { HasRow carts.old number.0 }
    ensures carts_after { carts_in carts.new ≡ with_cart (carts_in carts.old) number.0 cart }
    ensures carts_after_2 { canonical_in carts.new ≡ update (canonical_in carts.old) number.0 true }
    ensures carts_len_unchanged { length carts.new ≡ length carts.old }
{
    put_place(carts, number, cart.place, cart.steady);
    put_row(carts, number, cart.next);
}

// "it writes all the rest afresh": every cart is outside and steady, its next numbers are 0.
pub fn clear_carts(carts: &mut [u64])
    ensures carts_after { carts_in carts.new ≡ no_carts }
    ensures carts_after_2 { canonical_in carts.new ≡ (λ c. true) }
    ensures carts_len_unchanged { length carts.new ≡ length carts.old }
{
    rows::clear(carts);
}
