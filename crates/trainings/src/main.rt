// STORED RUNS OF THE TRAINING BENCH: prints what `training` prints for each file of frames that its arguments name, each under a line with the file's name.
#![tactic(auto)]

use std::io;

fn main(rt: HostRuntime) {
    frame_files::for_each_file(&rt, |path, mut file| {
        let _ = println!(rt; "{path}");
        training_stream::run(&mut file, &mut io::writer(&rt));
    });
}
