// THE PROGRAM DEMO: the program floor for the demonstration kit, "a second caller of the same steps with its own limits".
#![tactic(auto)]

fn main(rt: HostRuntime) {
    frame_stream::run_kit(&mut rt.stdin(), &mut rt.stdout());
}
