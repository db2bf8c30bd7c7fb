// THE GROUPS' CLAUSE OF THE FORM RULE: the members of each of the sixteen groups are carts of the floor that have entered. And whether the carts of
// a set have, which a send and a group ask of the carts that they name.
#![tactic(auto)]

ghost use Rattle.std.specs.Prelude.{◌≡◌, true, not, [], ℕ, ◌*◌, ◌≤◌, length};
ghost use Rattle.protocol.specs.Floor.{limits, entered};
ghost use Rattle.protocol.specs.Groups.{group_count};
ghost use Rattle.protocol.specs.CartSets.{has};
ghost use Rattle.protocol.specs.Claims.{test, all, when, is};
ghost use Rattle.protocol.specs.Form.{group_rule};
ghost use Rattle.stations.specs.View.{HasHead, head_in};
ghost use Rattle.carts.specs.Words.{HasRow};
ghost use Rattle.carts.specs.View.{carts_in};
ghost use Rattle.form_tables.specs.Tables.{tables};
ghost use Rattle.form_tables.specs.Parts.{Collects};

use ids::CartNumber;

// "not now entered": one that never was, or went back to the factory. A cart that is leaving or travelling is entered.
fn is_outside(carts: &[u64], number: CartNumber) -> bool
    requires { HasRow carts.now number.0 }
    ensures { result ≡ not (entered ((carts_in carts.now).place number.0)) }
{
    let place = carts::place_of(carts, number);
    !form_tables::has_entered(place)
}

// Every cart of the set has entered. The carts are walked from the least on, and no other is looked at.
pub fn all_entered(carts: &[u64], set: u64) -> bool
    requires { (c : ℕ) → has set c ≡ true → HasRow carts.now c }
    ensures { result ≡ test (all 64 (λ c. when (is (has set c)) (is (entered ((carts_in carts.now).place c))))) }
{
    for number in sets::members_of(set) {
        if is_outside(carts, CartNumber(number)) {
            return false;
        }
    }
    true
}

// The carts that are in any group.
fn grouped_carts(stations: &[u64]) -> u64
    requires { HasHead stations.now }
    ensures { Collects (head_in stations.now).groups group_count result }
{
    let mut grouped: u64 = 0;
    for group in 0..stations::GROUPS {
        grouped = sets::union(grouped, stations::group_of(stations, group));
    }
    grouped
}

// Every member of every group is a cart of the floor and has entered. A cart is looked at once, in however many groups it is.
pub fn groups_pass(stations: &[u64], carts: &[u64]) -> bool
    requires { HasHead stations.now × ((head_in stations.now).carts * 19 ≤ length carts.now) × ((head_in stations.now).carts ≤ 64) }
    ensures { result ≡ test (all group_count (group_rule limits (tables stations.now carts.now []))) }
{
    let grouped = grouped_carts(stations);
    grouped <= sets::all_below(stations::cart_count(stations)) && all_entered(carts, grouped)
}
