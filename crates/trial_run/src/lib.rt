// The trial run of document 01 over a reader and a writer: what the program `trial` does with standard input, and the program `trial_files` with files.
#![tactic(auto)]

pub mod run;
