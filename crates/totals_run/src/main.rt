// STORED RUN of the totals, at the edges of their limits: a line for each call, with what it was asked and what it answered.
#![tactic(auto)]

ghost use Rattle.std.specs.Prelude.{◌≡◌, ◌≤◌, take};
ghost use Rattle.totals.specs.Totals.{totals_of};

use std::io;
use totals::{CartResult, Tally, TotalsError};

// One result more than a list may have.
const TOO_MANY: usize = 4097;

// The sum of the first so many results.
fn sum_front(list: [CartResult; TOO_MANY], count: usize) -> Result<Tally, TotalsError>
    requires { count ≤ 4097 }
    ensures { result ≡ totals_of (take count list) }
{
    totals::sum(&list[..count])
}

// Each word and each number is a write of its own, so that a write that fails loses nothing of those before it.
fn print_number<P: Print>(rt: &P, number: u64) -> io::Result<()> {
    print!(rt; " {number}")
}

fn print_outcome<P: Print>(rt: &P, outcome: Result<Tally, TotalsError>) -> io::Result<()> {
    match outcome {
        Ok(totals) => {
            print_number(rt, totals.received)?;
            print_number(rt, totals.passed)?;
        }
        Err(error) => {
            print!(rt; " no")?;
            print_number(rt, error.number())?;
        }
    }
    println!(rt)
}

// So many results, all alike.
fn print_sum<P: Print>(rt: &P, count: usize, received: u32, passed: u32) -> io::Result<()>
    requires { count ≤ 4097 }
{
    print!(rt; "sum")?;
    print_number(rt, count as u64)?;
    print_number(rt, u64::from(received))?;
    print_number(rt, u64::from(passed))?;
    print!(rt; ":")?;
    let result = CartResult {
        cart: 0,
        received,
        passed,
    };
    print_outcome(rt, sum_front([result; TOO_MANY], count))
}

fn print_join<P: Print>(rt: &P, a: Tally, b: Tally) -> io::Result<()> {
    print!(rt; "join")?;
    print_number(rt, a.received)?;
    print_number(rt, a.passed)?;
    print_number(rt, b.received)?;
    print_number(rt, b.passed)?;
    print!(rt; ":")?;
    print_outcome(rt, totals::join(a, b))
}

fn print_ratio<P: Print>(rt: &P, totals: Tally) -> io::Result<()> {
    print!(rt; "ratio")?;
    print_number(rt, totals.received)?;
    print_number(rt, totals.passed)?;
    print!(rt; ":")?;
    match totals::ratio(totals) {
        Some(over) => {
            print_number(rt, over.passed)?;
            print!(rt; " /")?;
            print_number(rt, over.received)?;
        }
        None => print!(rt; " none")?,
    }
    println!(rt)
}

fn tally(received: u64, passed: u64) -> Tally {
    Tally { received, passed }
}

fn main(rt: HostRuntime) -> io::Result<()> {
    print_sum(&rt, 0, 1, 1)?;
    print_sum(&rt, 3, 2, 5)?;
    print_sum(&rt, 4096, 4294967295, 4294967295)?;
    print_sum(&rt, 4097, 0, 0)?;
    print_join(
        &rt,
        tally(18446744073709551614, 1),
        tally(1, 18446744073709551614),
    )?;
    print_join(&rt, tally(18446744073709551615, 0), tally(1, 0))?;
    print_join(&rt, tally(0, 1), tally(0, 18446744073709551615))?;
    print_join(&rt, tally(10, 10), tally(1, 0))?;
    print_ratio(&rt, tally(18446744073709551615, 18446744073709551614))?;
    print_ratio(&rt, tally(18446744073709551615, 18446744073709551615))?;
    print_ratio(&rt, tally(11, 10))?;
    print_ratio(&rt, tally(6, 4))?;
    print_ratio(&rt, tally(6, 0))?;
    print_ratio(&rt, tally(0, 7))
}
