// First-in-first-out lines between 16 stations, one from each station to each. Their records lie in one pool of words that the caller lends:
//   words 0 to 48     which rows are free: row r is bit r % 64 of word r / 64, and 1 is free
//   word 49           the summary: bit w is 1 exactly where word w is not 0
//   words 50 to 817   line k = i * 16 + j, from station i to j: its head row, its tail row, its length
//   words 818 to 1841 the registers: for each of 64 carts, the sixteen next numbers that its register carries
//   words 1842 and on the rows: the next row of the line, then the record's word and carts
// A head and a tail have no meaning where the length is 0, nor has the next row of a tail, nor the row of a cart whose register is on no line:
// a cart has one register at most, so its number finds the row. A push takes the lowest free row, by the lowest
// bit of the summary and that of its word, so no free rows need a list, and push and pop cost the same whatever the pool holds.
#![tactic(auto)]

ghost use Rattle.std.specs.Prelude.{◌≡◌, true, ◌∷◌, ◌+◌, ◌-◌, ◌*◌, ◌<◌, ◌≤◌, length, drop, eqb};
ghost use Rattle.protocol.specs.Folds.{every, list_of};
ghost use Rattle.protocol.specs.CartSets.{digit};
ghost use Rattle.lines.specs.Bits.{bit_at};
ghost use Rattle.lines.specs.Words.{free_words, most_rows, most_carts, lines_at, rows_at, line_at, row_at, head_of, tail_of, length_of, next_of, capacity, summary_of};
ghost use Rattle.lines.specs.Lines.{record_of, records_on, used, registers_in};
ghost use Rattle.lines.specs.Form.{form, sized, rows_ok, summary_ok};
ghost use Rattle.lines.specs.Post.{Pushed, Popped, Cleared, Carried};
ghost use Rattle.lines.specs.Holding.{released, Holds};
ghost use Rattle.lines.specs.Parts.{Summed, Full, Freed, Taken, Given, AllFree, Emptied, Link, Fits, joined, left, Marked, Surveyed};

const SUMMARY: usize = 49;

const LINES: usize = 50;

const LINE_COUNT: usize = 256;

const LINE_WORDS: usize = 3;

const REGISTERS: usize = 818;

const REGISTER_WORDS: usize = 16;

const ROWS: usize = 1842;

const ROW_WORDS: usize = 3;

// The least number with a bit past those of the summary.
const PAST_SUMMARY: u64 = 562949953421312;

// A record of a line: its word and its carts, whose meaning is the caller's.
#[derive(Clone, Copy)]
pub struct Record(pub u64, pub u64);

// ---- The words of the pool. The caller may walk a line by these: length_of rows from head_of, each followed by its next_of.

pub fn length_of(pool: &[u64], k: usize) -> usize
    requires { line_at k + 3 ≤ length pool.now }
    ensures { result ≡ length_of pool.now k }
{
    pool[LINES + k * LINE_WORDS + 2] as usize
}

pub fn head_of(pool: &[u64], k: usize) -> usize
    requires { line_at k + 3 ≤ length pool.now }
    ensures { result ≡ head_of pool.now k }
{
    pool[LINES + k * LINE_WORDS] as usize
}

pub fn tail_of(pool: &[u64], k: usize) -> usize
    requires { line_at k + 3 ≤ length pool.now }
    ensures { result ≡ tail_of pool.now k }
{
    pool[LINES + k * LINE_WORDS + 1] as usize
}

pub fn next_of(pool: &[u64], row: usize) -> usize
    requires { row_at row + 3 ≤ length pool.now }
    ensures { result ≡ next_of pool.now row }
{
    pool[ROWS + row * ROW_WORDS] as usize
}

pub fn record_of(pool: &[u64], row: usize) -> Record
    requires { row_at row + 3 ≤ length pool.now }
    ensures { result ≡ record_of pool.now row }
{
    Record(
        pool[ROWS + row * ROW_WORDS + 1],
        pool[ROWS + row * ROW_WORDS + 2],
    )
}

pub fn row_count(pool: &[u64]) -> usize
    requires { rows_at ≤ length pool.now }
    ensures { result ≡ capacity pool.now }
{
    (pool.len() - ROWS) / ROW_WORDS
}

// ---- The free rows.

// The summary s with the bit of word w, which is x now.
fn summed(s: u64, w: usize, x: u64) -> u64
    requires { w < free_words }
    ensures { Summed s w x result }
{
    if 0 < x {
        sets::with_member(s, w as u64)
    } else {
        sets::without_member(s, w as u64)
    }
}

// Stores a word of the free rows and its bit of the summary.
fn put_free(pool: &mut [u64], w: usize, x: u64)
    requires { (w < free_words) × (lines_at ≤ length pool.old) }
    ensures { Freed pool.old pool.new w x }
{
    pool[w] = x;
    pool[SUMMARY] = summed(pool[SUMMARY], w, x);
}

// The same where the summary is right already: it is stored only where the word becomes 0 or was, so that a push need not wait for the last.
fn change_free(pool: &mut [u64], w: usize, x: u64)
    requires { (w < free_words) × (50 ≤ length pool.old) × (summary_ok pool.old ≡ true) }
    ensures { Freed pool.old pool.new w x }
{
    if 0 < pool[w] && 0 < x {
        pool[w] = x;
        return;
    }
    put_free(pool, w, x);
}

// The lowest free row, which is free no more.
fn take_row(pool: &mut [u64]) -> usize
    requires { (lines_at ≤ length pool.old) × (summary_ok pool.old ≡ true) × (0 < summary_of pool.old) }
    ensures { Taken pool.old pool.new result }
{
    let w = sets::first(pool[SUMMARY]) as usize;
    let word = pool[w];
    let b = sets::first(word) as usize;
    change_free(pool, w, sets::without_first(word));
    w * 64 + b
}

fn give_row(pool: &mut [u64], row: usize)
    requires { (lines_at ≤ length pool.old) × (summary_ok pool.old ≡ true) × (row < most_rows) }
    ensures { Given pool.old pool.new row }
{
    let w = row / 64;
    let word = sets::with_member(pool[w], (row % 64) as u64);
    change_free(pool, w, word);
}

// Word w of the free rows where all rows are free.
fn full_word(rows: usize, w: usize) -> u64
    requires { (rows ≤ most_rows) × (w < free_words) }
    ensures { Full rows w result }
{
    let n = rows.saturating_sub(w * 64).min(64);
    sets::all_below(n as u64)
}

// ---- The lines.

// No record is on the line from i to j.
pub fn is_empty(pool: &[u64], i: usize, j: usize) -> bool
    requires { (i < 16) × (j < 16) × (form pool.now ≡ true) }
    ensures { result ≡ eqb (length (records_on pool.now (i * 16 + j))) 0 }
{
    length_of(pool, i * 16 + j) == 0
}

// The record at the head of the line from i to j.
pub fn front(pool: &[u64], i: usize, j: usize) -> Record
    requires { (i < 16) × (j < 16) × (form pool.now ≡ true) × (0 < length (records_on pool.now (i * 16 + j))) }
    ensures { records_on pool.now (i * 16 + j) ≡ result ∷ drop 1 (records_on pool.now (i * 16 + j)) }
{
    record_of(pool, head_of(pool, i * 16 + j))
}

// The word that has to name a row that joins line k: the head of an empty line, or the next row of its tail. Whether a line is empty cannot be
// guessed, so the two parts of that word's place are each chosen by themselves, without a branch.
fn link_at(pool: &[u64], k: usize) -> usize
    requires { (line_at k + 3 ≤ length pool.now) × (0 < length_of pool.now k → tail_of pool.now k < most_rows) }
    ensures { Link pool.now k result }
{
    let n = length_of(pool, k);
    let tail = tail_of(pool, k);
    let first = if n == 0 { LINES } else { ROWS };
    let row = if n == 0 { k } else { tail };
    first + row * ROW_WORDS
}

// The stores of a push: a row with its record, the word that names it, and the line of n rows that it joins.
fn join(pool: &mut [u64], at: usize, k: usize, row: usize, n: usize, r: Record)
    requires { Fits pool.old at k row n }
    ensures { pool.new ≡ joined pool.old at k row n r }
{
    pool[ROWS + row * ROW_WORDS + 1] = r.0;
    pool[ROWS + row * ROW_WORDS + 2] = r.1;
    pool[at] = row as u64;
    pool[LINES + k * LINE_WORDS + 1] = row as u64;
    pool[LINES + k * LINE_WORDS + 2] = (n + 1) as u64;
}

// The record joins the line from i to j at its end.
pub fn push_back(pool: &mut [u64], i: usize, j: usize, r: Record)
    requires { (i < 16) × (j < 16) × (form pool.old ≡ true) × (used pool.old < capacity pool.old) }
    ensures { Pushed pool.old pool.new (i * 16 + j) r }
{
    let k = i * 16 + j;
    let at = link_at(pool, k);
    let n = length_of(pool, k);
    let row = take_row(pool);
    join(pool, at, k, row, n, r);
}

// The stores of a pop: row is the head of a line of n rows once its head is gone.
fn leave(pool: &mut [u64], k: usize, row: usize, n: usize)
    requires { (line_at k + 3 ≤ length pool.old) × (0 < n) }
    ensures { pool.new ≡ left pool.old k row (n - 1) }
{
    pool[LINES + k * LINE_WORDS] = row as u64;
    pool[LINES + k * LINE_WORDS + 2] = (n - 1) as u64;
}

// A word of the free rows that a caller holds from push to push, so that no push has to wait for what the last one stored: word `at` of the
// pool is `free`, whatever the pool still says. It is one that is not 0, where there is one: a word that is used up is stored at once.
#[derive(Clone, Copy)]
pub struct Held {
    pub at: usize,
    pub free: u64,
}

// The word that has the lowest free row.
pub fn hold(pool: &[u64]) -> Held
    requires { (lines_at ≤ length pool.now) × (summary_ok pool.now ≡ true) }
    ensures { (released pool.now result ≡ pool.now) × Holds pool.now result }
{
    let s = pool[SUMMARY];
    if s == 0 {
        return Held {
            at: 0,
            free: pool[0],
        };
    }
    let w = sets::first(s) as usize;
    Held {
        at: w,
        free: pool[w],
    }
}

// The word that is held is x now. It stays held, or the next one is where x is 0.
fn change_held(pool: &mut [u64], held: Held, x: u64) -> Held
    requires { Holds pool.old held × (0 < held.free) × (lines_at ≤ length pool.old) × (summary_ok (released pool.old held) ≡ true) }
    ensures { Freed (released pool.old held) (released pool.new result) held.at x × Holds pool.new result }
{
    if 0 < x {
        return Held {
            at: held.at,
            free: x,
        };
    }
    put_free(pool, held.at, 0);
    hold(pool)
}

// A push_back for a caller that holds a word: what is held is another then, and it is the pool with that word released that is pushed to.
pub fn push_held(pool: &mut [u64], i: usize, j: usize, r: Record, held: Held) -> Held
    requires i_bound { (i < 16) × (j < 16) × Holds pool.old held }
    requires held_value { (form (released pool.old held) ≡ true) × (used (released pool.old held) < capacity (released pool.old held)) }
    ensures { Pushed (released pool.old held) (released pool.new result) (i * 16 + j) r × Holds pool.new result }
{
    let k = i * 16 + j;
    let at = link_at(pool, k);
    let n = length_of(pool, k);
    let b = sets::first(held.free) as usize;
    let rest = change_held(pool, held, sets::without_first(held.free));
    join(pool, at, k, held.at * 64 + b, n, r);
    rest
}

// Stores the word that is held, which is then held no more.
pub fn release(pool: &mut [u64], held: Held)
    requires { held.at < length pool.old }
    ensures { pool.new ≡ released pool.old held }
{
    let at = held.at;
    pool[at] = held.free;
}

// The record at the head of the line from i to j goes.
pub fn pop_front(pool: &mut [u64], i: usize, j: usize)
    requires { (i < 16) × (j < 16) × (form pool.old ≡ true) × (0 < length (records_on pool.old (i * 16 + j))) }
    ensures { Popped pool.old pool.new (i * 16 + j) }
{
    let k = i * 16 + j;
    let row = head_of(pool, k);
    let n = length_of(pool, k);
    leave(pool, k, next_of(pool, row), n);
    give_row(pool, row);
}

// ---- The registers.

// "the register record carries the cart's whole row of next numbers": that of the cart's register.
pub fn register_of(pool: &[u64], cart: usize) -> [u64; 16]
    requires { (cart < most_carts) × (rows_at ≤ length pool.now) }
    ensures { result ≡ list_of 16 (registers_in pool.now cart) }
{
    let at = REGISTERS + cart * REGISTER_WORDS;
    let mut row = [0u64; 16];
    for s in 0..REGISTER_WORDS {
        row[s] = pool[at + s];
    }
    row
}

// The cart's register carries that row.
pub fn put_register(pool: &mut [u64], cart: usize, row: [u64; 16])
    requires { (cart < most_carts) × (form pool.old ≡ true) }
    ensures { Carried pool.old pool.new cart row }
{
    let at = REGISTERS + cart * REGISTER_WORDS;
    for s in 0..REGISTER_WORDS {
        pool[at + s] = row[s];
    }
}

// ---- The start.

fn free_all(pool: &mut [u64])
    requires { sized pool.old ≡ true }
    ensures { AllFree pool.old pool.new }
{
    let rows = row_count(pool);
    pool[SUMMARY] = 0;
    for w in 0..SUMMARY {
        put_free(pool, w, full_word(rows, w));
    }
}

fn empty_lines(pool: &mut [u64])
    requires { rows_at ≤ length pool.old }
    ensures { Emptied pool.old pool.new }
{
    for k in 0..LINE_COUNT {
        pool[LINES + k * LINE_WORDS + 2] = 0;
    }
}

// All lines are empty, and all rows free.
pub fn clear(pool: &mut [u64])
    requires { sized pool.old ≡ true }
    ensures { Cleared pool.old pool.new }
{
    free_all(pool);
    empty_lines(pool);
}

// ---- The form test's part of the pool. Whoever walks the lines marks the rows that it sees, so no row is on two lines or twice on one. Then
// the rows seen and the free rows have to be all the rows of the pool, and none both.

pub fn is_marked(seen: &[u64], row: usize) -> bool
    requires { row < length seen.now * 64 }
    ensures { result ≡ eqb (bit_at seen.now row) 1 }
{
    sets::has(seen[row / 64], (row % 64) as u64)
}

pub fn mark(seen: &mut [u64], row: usize)
    requires { row < length seen.old * 64 }
    ensures { Marked seen.old seen.new row }
{
    let w = row / 64;
    seen[w] = sets::with_member(seen[w], (row % 64) as u64);
}

// The rows seen and the free rows are the whole word, and none is both.
fn word_ok(seen: u64, free: u64, whole: u64) -> bool
    ensures { result ≡ every 64 (λ c. eqb (digit seen c + digit free c) (digit whole c)) }
{
    sets::union(seen, free) == whole && sets::is_disjoint(seen, free)
}

fn rows_ok(pool: &[u64], seen: &[u64]) -> bool
    requires { (sized pool.now ≡ true) × (length seen.now ≡ free_words) }
    ensures { result ≡ rows_ok (bit_at seen.now) pool.now }
{
    let rows = row_count(pool);
    for w in 0..SUMMARY {
        if !word_ok(seen[w], pool[w], full_word(rows, w)) {
            return false;
        }
    }
    true
}

fn summary_ok(pool: &[u64]) -> bool
    requires { lines_at ≤ length pool.now }
    ensures { result ≡ summary_ok pool.now }
{
    let s = pool[SUMMARY];
    for w in 0..SUMMARY {
        if sets::has(s, w as u64) != (0 < pool[w]) {
            return false;
        }
    }
    s < PAST_SUMMARY
}

// What the words that say which rows are free have to be, once every line is walked and right: then it is all of the form.
pub fn rest_ok(pool: &[u64], seen: &[u64]) -> bool
    requires { (sized pool.now ≡ true) × (length seen.now ≡ free_words) × Surveyed pool.now seen.now true }
    ensures { result ≡ form pool.now }
{
    rows_ok(pool, seen) && summary_ok(pool)
}
