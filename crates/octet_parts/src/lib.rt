// OCTETS INTO A LENT PART: a text is copied to the front of the part that is lent for it.
#![tactic(auto)]

ghost use Rattle.std.specs.Prelude.{◌≡◌, ◌≤◌, ◌++◌, length, take, drop};

// The octets go to the front of the part, and what lies behind them there stays.
pub fn copy(from: &[u8], to: &mut [u8])
    requires { length from.now ≤ length to.old }
    ensures len_unchanged { length to.new ≡ length to.old }
    ensures front { to.new ≡ take (length from.now) from.now ++ drop (length from.now) to.old }
{
    let n = from.len();
    to[..n].copy_from_slice(from);
}
