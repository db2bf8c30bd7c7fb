// THE PROGRAM FLOOR: "reads frames from standard input and prints one line each".
#![tactic(auto)]

fn main(rt: HostRuntime) {
    frame_stream::run(&mut rt.stdin(), &mut rt.stdout());
}
