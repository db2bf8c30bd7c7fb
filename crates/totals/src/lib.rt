// PASSED OVER PER RECEIPT: "how many numbers a cart passes over for each correction it receives, over all sites". Finished runs come as a
// list of cart results, a site's list is summed into two totals, totals of several sites are joined, and their ratio is what is asked for.
// This is no part of the floor: nothing here reads one. What each answer is, is written in specs/Totals.
#![tactic(auto)]

ghost use Rattle.std.specs.Prelude.{◌≡◌};
ghost use Rattle.totals.specs.Totals.{number_of, totals_of, joined, gcd, ratio_of};

// "cart results, each with cart, received and passed, both at most 4,294,967,295". The cart is not looked at.
#[repr(C)]
#[derive(Clone, Copy, Debug, PartialEq, Eq)]
pub struct CartResult {
    pub cart: u32,
    pub received: u32,
    pub passed: u32,
}

// "totals as counted": how many corrections were received, and how many numbers passed over. None of either is "the empty result".
#[derive(Clone, Copy, Debug, Default, PartialEq, Eq)]
pub struct Tally {
    pub received: u64,
    pub passed: u64,
}

// Why there are no totals.
#[derive(Clone, Copy, Debug, PartialEq, Eq)]
pub enum TotalsError {
    // 22: "a list longer than 4,096, before any adding".
    TooLong,
    // 23: "a join whose total exceeds 64 bits".
    TooLarge,
}

impl TotalsError {
    // Its number in the table of refusals.
    pub fn number(self) -> u64
        ensures { result ≡ number_of self }
    {
        match self {
            TotalsError::TooLong => 22,
            TotalsError::TooLarge => 23,
        }
    }
}

// "total passed over total received, in lowest terms".
#[derive(Clone, Copy, Debug, PartialEq, Eq)]
pub struct Fraction {
    pub passed: u64,
    pub received: u64,
}

const MOST_RESULTS: usize = 4096;

// The totals of a lent list, or "22 a list longer than 4,096, before any adding". That the two numbers of a result fit 32 bits is said for the
// proof alone.
pub fn sum(results: &[CartResult]) -> Result<Tally, TotalsError>
    ensures { result ≡ totals_of results.now }
{
    if MOST_RESULTS < results.len() {
        return Err(TotalsError::TooLong);
    }
    let mut totals = Tally::default();
    for res in results {
        prove!(res.received <= u32::MAX);
        prove!(res.passed <= u32::MAX);
        totals.received += u64::from(res.received);
        totals.passed += u64::from(res.passed);
    }
    Ok(totals)
}

// Two sites' totals joined, or "23 a join whose total exceeds 64 bits".
pub fn join(a: Tally, b: Tally) -> Result<Tally, TotalsError>
    ensures { result ≡ joined a b }
{
    let received = a.received.checked_add(b.received);
    let passed = a.passed.checked_add(b.passed);
    Ok(Tally {
        received: received.ok_or(TotalsError::TooLarge)?,
        passed: passed.ok_or(TotalsError::TooLarge)?,
    })
}

// The greatest common divisor, by remainders: no count is kept, so there is no range to go over.
fn common_divisor(a: u64, b: u64) -> u64
    ensures { result ≡ gcd a b }
{
    let mut x = a;
    let mut y = b;
    while y != 0 {
        let rest = x % y;
        x = y;
        y = rest;
    }
    x
}

// The ratio of the totals, or "none" where nothing was received.
pub fn ratio(totals: Tally) -> Option<Fraction>
    ensures { result ≡ ratio_of totals }
{
    if totals.received == 0 {
        return None;
    }
    let divisor = common_divisor(totals.passed, totals.received);
    Some(Fraction {
        passed: totals.passed / divisor,
        received: totals.received / divisor,
    })
}
