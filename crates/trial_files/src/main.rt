// Trial runs as data: for each file that an argument names, its name on a line of its own, then what the trial run of that file writes.
#![tactic(auto)]

use std::env::FillError;
use std::fs::File;
use std::io;
use std::io::Write;
use std::rt::{Env, Files};
use trial_run::run::trial;

// The trial run of the file that argument i names. Says whether there is such an argument.
fn run_file(rt: &(impl Env + Files + Print + Eprint), i: usize) -> io::Result<bool> {
    let mut path = [0u8; 4096];
    let length = match rt.arg(i, &mut path) {
        Ok(n) => n,
        Err(FillError::NotPresent) => return Ok(false),
        Err(FillError::TooLong) => {
            eprintln!(rt; "argument: File name too long")?;
            return Ok(true);
        }
    };
    let mut out = io::writer(rt);
    out.write_all(&path[..length])?;
    out.write_all(b"\n")?;
    let Ok(name) = std::str::from_utf8(&path[..length]) else {
        eprintln!(rt; "argument: File name not in UTF-8")?;
        return Ok(true);
    };
    match File::open(rt, name) {
        Ok(mut input) => trial(&mut input, &mut out)?,
        Err(e) => eprintln!(rt; "{name}: {e}")?,
    }
    Ok(true)
}

fn main(rt: HostRuntime) -> io::Result<()> {
    for i in 1..usize::MAX {
        if !run_file(&rt, i)? {
            break;
        }
    }
    Ok(())
}
