// The totals under C names, for tools/totals and for tests in other languages. An enum cannot cross, so what it says crosses as numbers.
#![tactic(auto)]

ghost use Rattle.std.specs.Prelude.{◌≡◌};
ghost use Rattle.totals.specs.Totals.{totals_of, joined, ratio_of};
ghost use Rattle.exported_totals.specs.Numbers.{summed_of, terms_of};

use totals::{CartResult, Tally, TotalsError};

// What a sum or a join came to: the number of its refusal, or 0 and the totals. A `Result` does not cross to C.
#[repr(C)]
#[derive(Clone, Copy)]
pub struct Summed {
    pub refusal: u64,
    pub received: u64,
    pub passed: u64,
}

// A fraction, passed over received. Received is 0 where there is none, and only there.
#[repr(C)]
#[derive(Clone, Copy)]
pub struct Terms {
    pub passed: u64,
    pub received: u64,
}

fn numbers_of(outcome: Result<Tally, TotalsError>) -> Summed
    ensures { result ≡ summed_of outcome }
{
    match outcome {
        Ok(totals) => Summed {
            refusal: 0,
            received: totals.received,
            passed: totals.passed,
        },
        Err(error) => Summed {
            refusal: error.number(),
            received: 0,
            passed: 0,
        },
    }
}

// The sum of a lent list.
#[unsafe(no_mangle)]
pub extern "C" fn mekhturia_totals_sum(results: &[CartResult]) -> Summed
    ensures { result ≡ summed_of (totals_of results.now) }
{
    numbers_of(totals::sum(results))
}

// The join of two sites' totals.
#[unsafe(no_mangle)]
pub extern "C" fn mekhturia_totals_join(
    received1: u64,
    passed1: u64,
    received2: u64,
    passed2: u64,
) -> Summed
    ensures { result ≡ summed_of (joined (record { received = received1; passed = passed1 }) (record { received = received2; passed = passed2 })) }
{
    let a = Tally {
        received: received1,
        passed: passed1,
    };
    let b = Tally {
        received: received2,
        passed: passed2,
    };
    numbers_of(totals::join(a, b))
}

// The ratio of totals.
#[unsafe(no_mangle)]
pub extern "C" fn mekhturia_totals_ratio(received: u64, passed: u64) -> Terms
    ensures { result ≡ terms_of (ratio_of (record { received = received; passed = passed })) }
{
    match totals::ratio(Tally { received, passed }) {
        None => Terms {
            passed: 0,
            received: 0,
        },
        Some(over) => Terms {
            passed: over.passed,
            received: over.received,
        },
    }
}
