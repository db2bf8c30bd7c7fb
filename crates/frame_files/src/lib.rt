// EACH FILE THAT THE PROGRAM'S ARGUMENTS NAME, for a program to read: a stored run is such a file, of frames.
#![tactic(auto)]

use std::env::{Env, FillError};
use std::rt::Files;
use std::{fs, io, str};

// A line on standard error: what failed, and why. Where it cannot be written, there is nobody to be told.
pub fn fail<P: Eprint>(rt: &P, what: &str, why: io::Error) {
    let _ = eprintln!(rt; "{what}: {why}");
}

// The file that an argument names, or why it cannot be read. std takes a name as text.
fn visit_file<P: Files + Eprint, F: Fn(&str, P::File)>(rt: &P, name: &[u8], visit: &F)
    requires { F.IsAlwaysCallable visit.now }
{
    let Ok(path) = str::from_utf8(name) else {
        return fail(rt, "path", io::Error::from(io::ErrorKind::InvalidFilename));
    };
    match fs::open(rt, path) {
        Ok(file) => visit(path, file),
        Err(why) => fail(rt, path, why),
    }
}

// All of them, in order.
pub fn for_each_file<P: Env + Files + Eprint, F: Fn(&str, P::File)>(rt: &P, visit: F)
    requires { F.IsAlwaysCallable visit }
{
    for i in 1..usize::MAX {
        let mut name = [0u8; 4096];
        match rt.arg(i, &mut name) {
            Ok(length) => visit_file(rt, &name[..length], &visit),
            Err(FillError::NotPresent) => return,
            Err(FillError::TooLong) => {
                fail(rt, "path", io::Error::from(io::ErrorKind::InvalidFilename))
            }
        }
    }
}
