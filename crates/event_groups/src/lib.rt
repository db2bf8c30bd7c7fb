// WHICH CARTS ARE IN A GROUP, on a floor that events can go on with: "Kind 7 carries a group number .. and the set; an empty set undefines the group". It
// is refused first, "Checks run down the table", and then is one word of the floor's own row.
#![tactic(auto)]

ghost use Rattle.std.specs.Prelude.{◌≡◌, false, List, [], ℕ, ◌*◌, ◌≤◌, length};
ghost use Rattle.protocol.specs.Floor.{Product, limits_of};
ghost use Rattle.protocol.specs.Events as events;
ghost use Rattle.protocol.specs.Refusals.{check, no_group, refusal_if};
ghost use Rattle.stations.specs.View.{HasHead, head_in};
ghost use Rattle.view.specs.View.{lent, floor_in};
ghost use Rattle.refusals.specs.Numbers.{refusal_in};
ghost use Rattle.event_answers.specs.Answers.{answer_in};
ghost use Rattle.event_answers.specs.Met.{ReadyBySome, MetByEach};

use event_answers::{Accepted, Answer, Outcome};
use refusals::Refusal;

// "26 for a library group above 15".
fn check_number(group: u64) -> Result<(), Refusal>
    ensures { refusal_in result ≡ check 26 (no_group group) 0 }
{
    if stations::GROUPS <= group {
        return Err(Refusal::NoSuchGroup);
    }
    Ok(())
}

// The checks of a group, 9, "12 after 9, then 26".
fn check_group(stations: &[u64], carts: &[u64], group: u64, set: u64) -> Result<(), Refusal>
    requires { HasHead stations.now × ((head_in stations.now).carts * 19 ≤ length carts.now) × ((head_in stations.now).carts ≤ 64) }
    ensures { (P : Product) (M W T O : List ℕ) → refusal_in result ≡ refusal_if (limits_of P) (floor_in (lent P stations.now carts.now M W T O)) false (events.group group set) }
{
    let of_set = event_send::check_named(stations, carts, set);
    of_set.and(check_number(group))
}

// The group has these members from now on, and answers how many they are. Messages that were sent to it keep the set as sent.
pub fn define_group(
    stations: &mut [u64],
    carts: &[u64],
    messages: &[u64],
    lines: &[u64],
    texts: &[u8],
    store: &[u8],
    group: u64,
    set: u64,
) -> Answer
    requires { ReadyBySome (λ P. lent P stations.old carts.now messages.now lines.now texts.now store.now) }
    ensures { MetByEach (λ P. lent P stations.old carts.now messages.now lines.now texts.now store.now) (λ P. lent P stations.new carts.now messages.now lines.now texts.now store.now) (events.group group set) (answer_in result []) }
{
    if !stations::is_started(stations) {
        return Err(Refusal::NotReady);
    }
    check_group(stations, carts, group, set)?;
    stations::put_group(stations, group, set);
    let members = sets::count(set);
    Ok(Accepted {
        outcome: Outcome::Grouped(group, members),
        effect: reports::nothing(),
    })
}
