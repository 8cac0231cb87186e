// The trial run of document 01, from standard input to standard output.
#![tactic(auto)]

use std::io;
use trial_run::run::trial;

fn main(rt: HostRuntime) -> io::Result<()> {
    trial(&mut rt.reader(), &mut io::writer(&rt))
}
