// THE PROGRAM TRAINING: "feeds both so from one standard input, and prints for each accepted radio step the index and the list head's initiator and
// number, and nothing else".
#![tactic(auto)]

fn main(rt: HostRuntime) {
    training_stream::run(&mut rt.stdin(), &mut rt.stdout());
}
