// The printed run: "prints one line each: index from 0, kind, a, b, p, w. Refused: index, no, refusal", and "each accepted line gains a field q
// after w". A line is written into octets that the caller lends; everything before it and behind it stays.
#![tactic(auto)]

ghost use Rattle.std.specs.Prelude.{◌≡◌, true, cond, [], ◌∷◌, ◌++◌, ◌+◌, ◌*◌, ◌/◌, ◌%◌, ◌<◌, ◌≤◌, ltb, length, take, drop};
ghost use Rattle.protocol.specs.Events.{refused};
ghost use Rattle.protocol.specs.Printed.{digit_char, decimal, hexadecimal, field, text_field, report_fields, rest_of, line_of};
ghost use Rattle.reports.specs.Effects.{report_in, accepted_in};
ghost use Rattle.frame_lines.specs.Lines.{written, Wrote, Began, Spells, Tabled, last_digits, four_octets};
ghost use Rattle.frame_lines.specs.Lines.{longest_number, longest_field, short_field, longest_pair, longest_head, longest_numbers, text_octets, text_digits, long_octets};
ghost use Rattle.frame_lines.specs.Lines.{longest_text, longest_fields, longest_rest, digits_room, rest_room, longest_no, short_rest, longest_refusal};

use products::{LONG, TEXT};
use reports::Report;

// The longest number has so many digits.
const LONGEST_NUMBER: usize = 20;

// So many numbers stand behind the index, each with a blank before it: kind, a, b, p, w and q.
const FIELDS: usize = 6;

// The digits of a text in a room: each octet is printed as two.
const TEXT_DIGITS: usize = 2 * TEXT;

// The room that a line is written in, which is the longest line's: the index, the numbers, a blank and the text, and the line end.
pub const LINE_ROOM: usize = LONGEST_NUMBER + FIELDS * (1 + LONGEST_NUMBER) + 1 + 2 * LONG + 1;

// So many numbers are spelled in the lent table: those of at most four digits.
const NUMBERS: usize = 10000;

// How much further on the character of a digit stands: from 10 on they are letters.
fn letter(d: u64) -> u64
    ensures { (result ≡ cond (ltb d 10) 0 39) × (result ≤ 39) }
{
    if d < 10 { 0 } else { 39 }
}

// The character of a digit. It is a sum and not a choice, so that many are made at once in few operations.
fn digit(d: u64) -> u8
    requires { d < 16 }
    ensures { result ≡ digit_char d }
{
    (48 + d + letter(d)) as u8
}

// How many decimal digits a number has. A division takes off four of them; the library has no `ilog10`.
fn digits_of(n: u64) -> usize
    ensures { (result ≡ length (decimal n)) × (result ≤ longest_number) }
{
    let mut count: usize = 1;
    let mut left = n;
    while 10000 <= left {
        left = left / 10000;
        count += 4;
    }
    if left < 10 {
        return count;
    }
    if left < 100 {
        return count + 1;
    }
    if left < 1000 {
        return count + 2;
    }
    count + 3
}

// The last digits of a number, so many, stored from the right, two for each division: a `for` over the digits would divide twice as often.
fn put_digits(out: &mut [u8], at: usize, count: usize, n: u64)
    requires { at + count ≤ length out.old }
    ensures { out.new ≡ written out.old at (last_digits count n) }
{
    let mut i = at + count;
    let mut left = n;
    while at + 1 < i {
        out[i - 1] = digit(left % 10);
        out[i - 2] = digit(left / 10 % 10);
        i -= 2;
        left = left / 100;
    }
    if at < i {
        out[at] = digit(left % 10);
    }
}

// The two digits of a number, also where the first is 0. 256 times the number less 2559 times its tens is its tens and 256 times its units: both
// digits side by side in one word, by one division; 12336 makes characters of them.
fn put_pair(out: &mut [u8], at: usize, n: u64)
    requires { (at + 2 ≤ length out.old) × (n < 100) }
    ensures { out.new ≡ written out.old at (last_digits 2 n) }
{
    let word = 12336 + n * 256 - n / 10 * 2559;
    out[at..at + 2].copy_from_slice(&(word as u16).to_le_bytes());
}

// The four octets of a word, the least first: one store.
fn put_word(out: &mut [u8], at: usize, word: u64)
    requires { (at + 4 ≤ length out.old) × (word < 4294967296) }
    ensures { out.new ≡ written out.old at (four_octets word) }
{
    out[at..at + 4].copy_from_slice(&(word as u32).to_le_bytes());
}

// The four digits of a number, also where the first are 0: two pairs at once, as above, and one store for all four.
fn put_four(out: &mut [u8], at: usize, n: u64)
    requires { (at + 4 ≤ length out.old) × (n < 10000) }
    ensures { out.new ≡ written out.old at (last_digits 4 n) }
{
    let high = n / 100;
    let low = n % 100;
    let pairs = high + low * 65536;
    let tens = high / 10 + low / 10 * 65536;
    put_word(out, at, 808464432 + pairs * 256 - tens * 2559);
}

// A number of at most four digits. A division costs more than a store, so there are no more of them than pairs.
fn put_small(out: &mut [u8], at: usize, n: u64) -> usize
    requires { (at + 4 ≤ length out.old) × (n < 10000) }
    ensures { Wrote 4 (decimal n) out.old out.new at result }
{
    if n < 10 {
        out[at] = digit(n);
        return at + 1;
    }
    if n < 100 {
        put_pair(out, at, n);
        return at + 2;
    }
    if n < 1000 {
        out[at] = digit(n / 100);
        put_pair(out, at + 1, n % 100);
        return at + 3;
    }
    put_four(out, at, n);
    at + 4
}

// A number in decimal. Most have at most four digits, and few have more than eight, which are stored from the right.
fn put_decimal(out: &mut [u8], at: usize, n: u64) -> usize
    requires { at + longest_number ≤ length out.old }
    ensures { Wrote longest_number (decimal n) out.old out.new at result }
{
    if n < 10000 {
        return put_small(out, at, n);
    }
    if n < 100000000 {
        let next = put_small(out, at, n / 10000);
        put_four(out, next, n % 10000);
        return next + 4;
    }
    let count = digits_of(n);
    put_digits(out, at, count, n);
    at + count
}

// Four octets as a word, the first one lowest.
fn word_of(octets: &[u8; 4]) -> u64
    ensures { (four_octets result ≡ octets.now) × (result < 4294967296) }
{
    u64::from(u32::from_le_bytes(*octets))
}

// A number in a word: its digits and blanks behind them in the four lowest octets, and above these how many digits it has.
fn spell(n: u64) -> u64
    requires { n < 10000 }
    ensures { Spells result n }
{
    let mut octets = [b' '; 4];
    let count = put_small(&mut octets, 0, n);
    word_of(&octets) + count as u64 * 4294967296
}

// THE TABLE OF NUMBERS: all of at most four digits, spelled once. A line then looks its numbers up, and no branch asks how many digits they have.
pub fn spell_all(numbers: &mut [u64])
    requires { length numbers.old ≡ 10000 }
    ensures { Tabled numbers.new }
{
    for n in 0..NUMBERS {
        numbers[n] = spell(n as u64);
    }
}

// A number of at most four digits, by the table. Up to three octets behind it become blanks: whatever is written next covers them.
fn put_spelled(out: &mut [u8], at: usize, numbers: &[u64], n: u64) -> usize
    requires { (at + 4 ≤ length out.old) × Tabled numbers.now × (n < 10000) }
    ensures { Began 3 4 (decimal n) out.old out.new at result }
{
    let word = numbers[n as usize];
    put_word(out, at, word % 4294967296);
    at + (word / 4294967296) as usize
}

// The word of four digits, also where the first are 0: then it is that of 1,000 more, whose first digit is 1, less one.
fn four_word(numbers: &[u64], n: u64) -> u64
    requires { Tabled numbers.now × (n < 10000) }
    ensures { (four_octets result ≡ last_digits 4 n) × (result < 4294967296) }
{
    if n < 1000 {
        return numbers[n as usize + 1000] % 4294967296 - 1;
    }
    numbers[n as usize] % 4294967296
}

// Octets from a position on, so many. Where that is a constant, the compiler moves them as a word or two; the library's `copy_from_slice` asks first
// whether the two parts overlap, which took a line 7 % longer.
fn copy_part(out: &mut [u8], at: usize, from: &[u8], first: usize, count: usize)
    requires { (at + count ≤ length out.old) × (first + count ≤ length from.now) }
    ensures { out.new ≡ written out.old at (take count (drop first from.now)) }
{
    for k in 0..count {
        out[at + k] = from[first + k];
    }
}

// THE INDEX, with which a line begins. Few have more than eight digits. Up to three octets behind it become blanks: the rest of the line covers them.
pub fn put_index(out: &mut [u8], at: usize, numbers: &[u64], n: u64) -> usize
    requires { (at + longest_number ≤ length out.old) × Tabled numbers.now }
    ensures { Began 3 longest_number (decimal n) out.old out.new at result }
{
    if n < 10000 {
        return put_spelled(out, at, numbers, n);
    }
    if n < 100000000 {
        let next = put_spelled(out, at, numbers, n / 10000);
        put_word(out, next, four_word(numbers, n % 10000));
        return next + 4;
    }
    put_decimal(out, at, n)
}

// A blank and a number of one digit.
fn put_one(out: &mut [u8], at: usize, n: u64) -> usize
    requires { (at + 2 ≤ length out.old) × (n < 10) }
    ensures { Wrote 2 (field n) out.old out.new at result }
{
    out[at] = b' ';
    out[at + 1] = digit(n);
    at + 2
}

// A blank and a number.
fn put_field(out: &mut [u8], at: usize, n: u64) -> usize
    requires { at + longest_field ≤ length out.old }
    ensures { Wrote longest_field (field n) out.old out.new at result }
{
    if n < 10 {
        return put_one(out, at, n);
    }
    out[at] = b' ';
    put_decimal(out, at + 1, n)
}

// Two of them, and nothing behind them changes. Most often both have one digit: then one word holds blank, digit, blank and digit.
pub fn put_two_fields(out: &mut [u8], at: usize, x: u64, y: u64) -> usize
    requires { at + longest_pair ≤ length out.old }
    ensures { Wrote longest_pair (field x ++ field y) out.old out.new at result }
{
    if x < 10 && y < 10 {
        put_word(out, at, 807415840 + x * 256 + y * 16777216);
        return at + 4;
    }
    let next = put_field(out, at, x);
    put_field(out, next, y)
}

// A blank and a number of at most four digits, by the table.
fn put_short(out: &mut [u8], at: usize, numbers: &[u64], n: u64) -> usize
    requires { (at + short_field ≤ length out.old) × Tabled numbers.now × (n < 10000) }
    ensures { Began 3 short_field (field n) out.old out.new at result }
{
    out[at] = b' ';
    put_spelled(out, at + 1, numbers, n)
}

// Has kind one digit, and have a, b and p at most four?
fn are_short(r: Report) -> bool
    ensures { result ≡ true → (r.kind < 10) × (r.a < 10000) × (r.b < 10000) × (r.effect.passed < 10000) }
{
    r.kind < 10 && r.a < 10000 && r.b < 10000 && r.effect.passed < 10000
}

// Kind, a, b and p. By the table they leave up to three blanks behind them, which w and q cover.
fn put_head(out: &mut [u8], at: usize, numbers: &[u64], r: Report) -> usize
    requires { (at + longest_head ≤ length out.old) × Tabled numbers.now }
    ensures { Began 3 longest_head (field r.kind ++ field r.a ++ field r.b ++ field r.effect.passed) out.old out.new at result }
{
    if !are_short(r) {
        let a = put_two_fields(out, at, r.kind, r.a);
        return put_two_fields(out, a, r.b, r.effect.passed);
    }
    let kind = put_one(out, at, r.kind);
    let a = put_short(out, kind, numbers, r.a);
    let b = put_short(out, a, numbers, r.b);
    put_short(out, b, numbers, r.effect.passed)
}

// A room's octets in lower-case hexadecimal, all of them: the loop has a constant length, so the compiler makes straight code of it.
fn room_digits(digits: &mut [u8], room: &[u8])
    requires { (length digits.old ≡ text_digits) × (length room.now ≡ text_octets) }
    ensures { digits.new ≡ hexadecimal room.now }
{
    for i in 0..TEXT {
        let x = u64::from(room[i]);
        digits[2 * i] = digit(x / 16);
        digits[2 * i + 1] = digit(x % 16);
    }
}

// The first digits of a room, so many. How many is not to be guessed, so all are moved, and what stood behind those is put back: there is no
// branch that asks.
fn copy_digits(out: &mut [u8], at: usize, digits: &[u8], count: usize)
    requires { (at + digits_room ≤ length out.old) × (length digits.now ≡ text_digits) × (count ≤ text_digits) }
    ensures { out.new ≡ written out.old at (take count digits.now) }
{
    let mut behind = [0u8; TEXT_DIGITS];
    copy_part(&mut behind, 0, out, at + count, TEXT_DIGITS);
    copy_part(out, at, digits, 0, TEXT_DIGITS);
    copy_part(out, at + count, &behind, 0, TEXT_DIGITS);
}

// A blank and a text, the first octets of its room: "in lower-case hexadecimal, - if empty".
fn put_text(out: &mut [u8], at: usize, room: &[u8], size: usize) -> usize
    requires { (at + longest_text ≤ length out.old) × (length room.now ≡ text_octets) × (size ≤ text_octets) }
    ensures { Wrote longest_text (text_field (take size room.now)) out.old out.new at result }
{
    out[at] = b' ';
    if size == 0 {
        out[at + 1] = b'-';
        return at + 2;
    }
    let mut digits = [0u8; TEXT_DIGITS];
    room_digits(&mut digits, room);
    copy_digits(out, at + 1, &digits, 2 * size);
    at + 1 + 2 * size
}

// "kind, a, b, p, w", q, and "Radio adds the text", which "remains last".
fn put_fields(
    out: &mut [u8],
    at: usize,
    numbers: &[u64],
    r: Report,
    room: &[u8],
    size: usize,
) -> usize
    requires { (at + longest_fields ≤ length out.old) × Tabled numbers.now × (length room.now ≡ text_octets) × (size ≤ text_octets) }
    ensures { Wrote longest_fields (report_fields (report_in r (take size room.now))) out.old out.new at result }
{
    let p = put_head(out, at, numbers, r);
    let q = put_two_fields(out, p, r.effect.records, r.effect.place);
    if r.kind == 4 {
        return put_text(out, q, room, size);
    }
    q
}

// THE REST OF THE LINE of an accepted event, behind its index; of a radio step with the text that was handed over, which is lent with all its room.
// The position behind the line is returned.
pub fn end_accepted(
    out: &mut [u8],
    at: usize,
    numbers: &[u64],
    r: Report,
    room: &[u8],
    size: usize,
) -> usize
    requires { (at + rest_room ≤ length out.old) × Tabled numbers.now × (length room.now ≡ text_octets) × (size ≤ text_octets) }
    ensures { Wrote longest_rest (rest_of (accepted_in r (take size room.now))) out.old out.new at result }
{
    let fields = put_fields(out, at, numbers, r, room, size);
    out[fields] = b'\n';
    fields + 1
}

// A blank and a text that lies in the long store, which is lent alone: its octets are many, and a loop over them costs no more than they do.
fn put_long_text(out: &mut [u8], at: usize, text: &[u8]) -> usize
    requires { (at + longest_text ≤ length out.old) × (0 < length text.now) × (length text.now ≤ long_octets) }
    ensures { Wrote longest_text (text_field text.now) out.old out.new at result }
{
    out[at] = b' ';
    for i in 0..text.len() {
        let x = u64::from(text[i]);
        let next = at + 1 + 2 * i;
        out[next] = digit(x / 16);
        out[next + 1] = digit(x % 16);
    }
    at + 1 + 2 * text.len()
}

// "kind, a, b, p, w" and q, without the table: before a long text it would save little.
fn put_numbers(out: &mut [u8], at: usize, r: Report) -> usize
    requires { at + longest_numbers ≤ length out.old }
    ensures { Wrote longest_numbers (field r.kind ++ field r.a ++ field r.b ++ field r.effect.passed ++ field r.effect.records ++ field r.effect.place) out.old out.new at result }
{
    let b = put_two_fields(out, at, r.kind, r.a);
    let w = put_two_fields(out, b, r.b, r.effect.passed);
    put_two_fields(out, w, r.effect.records, r.effect.place)
}

// The fields with a long text, of which only a radio step's line has the text.
fn put_long_fields(out: &mut [u8], at: usize, r: Report, text: &[u8]) -> usize
    requires { (at + longest_fields ≤ length out.old) × (0 < length text.now) × (length text.now ≤ long_octets) }
    ensures { Wrote longest_fields (report_fields (report_in r text.now)) out.old out.new at result }
{
    let q = put_numbers(out, at, r);
    if r.kind != 4 {
        return q;
    }
    put_long_text(out, q, text)
}

// THE REST OF THE LINE of an accepted event whose text lies in the long store.
pub fn end_accepted_long(out: &mut [u8], at: usize, r: Report, text: &[u8]) -> usize
    requires { (at + rest_room ≤ length out.old) × (0 < length text.now) × (length text.now ≤ long_octets) }
    ensures { Wrote longest_rest (rest_of (accepted_in r text.now)) out.old out.new at result }
{
    let fields = put_long_fields(out, at, r, text);
    out[fields] = b'\n';
    fields + 1
}

// A blank and the word.
fn put_no(out: &mut [u8], at: usize) -> usize
    requires { at + longest_no ≤ length out.old }
    ensures { Wrote longest_no (32 ∷ 110 ∷ 111 ∷ []) out.old out.new at result }
{
    out[at..at + 3].copy_from_slice(b" no");
    at + 3
}

// The rest of the line of a refused one.
pub fn end_refused(out: &mut [u8], at: usize, number: u64) -> usize
    requires { at + short_rest ≤ length out.old }
    ensures { Wrote short_rest (rest_of (refused number)) out.old out.new at result }
{
    let word = put_no(out, at);
    let refusal = put_field(out, word, number);
    out[refusal] = b'\n';
    refusal + 1
}

// The whole line of a refusal.
pub fn put_refusal(out: &mut [u8], at: usize, index: u64, number: u64) -> usize
    requires { at + longest_refusal ≤ length out.old }
    ensures { Wrote longest_refusal (line_of index (refused number)) out.old out.new at result }
{
    let rest = put_decimal(out, at, index);
    end_refused(out, rest, number)
}
