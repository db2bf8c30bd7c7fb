// THE LISTS' SIDE OF THE TRAINING BENCH: the calls that the frames of a piece made are made to the lists, and each take has its line: "prints for each
// accepted radio step the index and the list head's initiator and number, and nothing else". What is printed is the lists' reply, not the floor's
// answer.
#![tactic(auto)]

ghost use Rattle.std.specs.Prelude.{◌≡◌, [], ◌∷◌, ◌++◌, ◌+◌, ◌*◌, ◌<◌, ◌≤◌, length};
ghost use Rattle.std.proofs.Math.Option.{some};
ghost use Rattle.protocol.specs.PlainLists.{plain_take};
ghost use Rattle.protocol.specs.Printed.{decimal, field};
ghost use Rattle.frame_lines.specs.Lines.{Tabled, Wrote};
ghost use Rattle.lists.specs.View.{lent_lists, lists_in};
ghost use Rattle.lists.specs.Calls.{ListsReady};
ghost use Rattle.training_rows.specs.Calls.{width, calls_in, made_in, made_by, TextIn, TextsIn};
ghost use Rattle.training_lists.specs.Lines.{head_room, reply_line, Answered, Fed};

use ids::{CartNumber, MessageNumber, Station};
use lists::Reply;
use refusals::Refusal;
use training_rows::Call;

// The line of a message at the head of a list: the index, the initiator and the number.
fn put_head(
    output: &mut [u8],
    at: usize,
    numbers: &[u64],
    index: u64,
    station: Station,
    number: MessageNumber,
) -> usize
    requires { (at + head_room ≤ length output.old) × Tabled numbers.now }
    ensures { Wrote head_room (decimal index ++ field station.0 ++ field number.0 ++ (10 ∷ [])) output.old output.new at result }
{
    let fields = frame_lines::put_index(output, at, numbers, index);
    let end = frame_lines::put_two_fields(output, fields, station.0, number.0);
    output[end] = b'\n';
    end + 1
}

// The line of a take, by what the lists replied.
fn put_reply(
    output: &mut [u8],
    at: usize,
    numbers: &[u64],
    index: u64,
    station: Station,
    reply: Result<Reply, Refusal>,
) -> usize
    requires { (at + head_room ≤ length output.old) × Tabled numbers.now }
    ensures { Wrote head_room (reply_line index station.0 reply) output.old output.new at result }
{
    match reply {
        Ok(Reply::Took(number, _)) => put_head(output, at, numbers, index, station, number),
        Ok(Reply::Begun) => at,
        Ok(Reply::Sent(_)) => at,
        Err(_) => at,
    }
}

// A take, and its line.
fn take(
    counts: &mut [u64],
    sends: &mut [u64],
    octets: &[u8],
    output: &mut [u8],
    at: usize,
    numbers: &[u64],
    index: u64,
    station: Station,
    cart: CartNumber,
) -> usize
    requires lists_ready { ListsReady (lent_lists counts.old sends.old octets.now) }
    requires head_room_in_bounds { (at + head_room ≤ length output.old) × Tabled numbers.now }
    ensures { Answered (lent_lists counts.old sends.old octets.now) (lent_lists counts.new sends.new octets.now) (some (plain_take station.0 cart.0)) index output.old output.new at result }
{
    let mut text = [0u8; list_rows::TEXT];
    let reply = lists::take(counts, sends, octets, station, cart, &mut text);
    put_reply(output, at, numbers, index, station, reply)
}

// One call, if there is one, and its line.
fn make_call(
    counts: &mut [u64],
    sends: &mut [u64],
    octets: &mut [u8],
    input: &[u8],
    output: &mut [u8],
    at: usize,
    numbers: &[u64],
    index: u64,
    call: Option<Call>,
) -> usize
    requires lists_ready { ListsReady (lent_lists counts.old sends.old octets.old) × TextIn (length input.now) call }
    requires head_room_in_bounds { (at + head_room ≤ length output.old) × Tabled numbers.now }
    ensures { Answered (lent_lists counts.old sends.old octets.old) (lent_lists counts.new sends.new octets.new) (made_in input.now call) index output.old output.new at result }
{
    match call {
        None => at,
        Some(Call::Start(n, k)) => {
            let _ = lists::start(counts, sends, octets, n, k);
            at
        }
        Some(Call::Send(station, set, from, size)) => {
            let end = from + size;
            let _ = lists::send(counts, sends, octets, station, set, &input[from..end]);
            at
        }
        Some(Call::Take(station, cart)) => take(
            counts, sends, octets, output, at, numbers, index, station, cart,
        ),
    }
}

// ALL CALLS OF A PIECE, those of its first rows, from the frame with this index on: how many octets their lines have. The lists are those of the written
// calls, and the lines are the written ones.
pub fn make_calls(
    counts: &mut [u64],
    sends: &mut [u64],
    octets: &mut [u8],
    input: &[u8],
    calls: &[u64],
    frames: u64,
    output: &mut [u8],
    numbers: &[u64],
    index: u64,
) -> usize
    requires lists_ready { ListsReady (lent_lists counts.old sends.old octets.old) × Tabled numbers.now × TextsIn input.now calls.now frames }
    requires width_in_bounds { (frames * width ≤ length calls.now) × (frames * head_room ≤ length output.old) × (index + frames < 18446744073709551616) }
    ensures { Fed (lists_in (lent_lists counts.old sends.old octets.old)) (made_by input.now (calls_in calls.now) frames) index (lent_lists counts.new sends.new octets.new) output.old output.new result × (result ≤ frames * head_room) }
{
    let mut at = 0;
    for row in 0..frames {
        let call = training_rows::call_at(calls, row as usize);
        at = make_call(
            counts,
            sends,
            octets,
            input,
            output,
            at,
            numbers,
            index + row,
            call,
        );
    }
    at
}
