// THE PROGRAM CLOSING: "reads frames as floor does, prints as floor does, and at the end of the input runs the floor until it is quiet and prints one
// line more, quiet, the number of steps, and how many messages are then held".
#![tactic(auto)]

fn main(rt: HostRuntime) {
    frame_closing::close(&mut rt.stdin(), &mut rt.stdout());
}
