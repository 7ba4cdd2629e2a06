// The program `farey`: its one argument is a job and its text comes on standard input. On standard output it writes
// what the job answers, or the number and the place of a refusal (docs/CONVENTIONS.md, 10.7 to 10.15). The script
// ./farey calls it.
//
// `jobs` makes all that is written; `stdio` reads and writes. Where standard input can't be read to its end, or the
// argument names no job, nothing is written to standard output, and one line to standard error.
#![tactic(auto)]

mod jobs;

ghost use Rattle.farey.specs.Jobs.{FindsJob};

use jobs::answer_named;
use std::env::{Env, FillError};

// What the program can be asked for.
#[derive(Clone, Copy)]
enum Job {
    Sheet,
    Import,
    ImportWide,
    Named,
    Same,
    Exchange,
    Intersection,
    Tower,
    Cycles,
    ToCycles,
}

fn main(rt: HostRuntime) {
    // The longest name has 12 bytes. An argument that is longer than 16 is none.
    let mut name = [0u8; 16];
    let Ok(n) = rt.arg(1, &mut name) else {
        tell_names(&rt);
        return;
    };
    if more_arguments(&rt) {
        tell_names(&rt);
        return;
    }
    // A name of no job waits for no input.
    if find_job(&name[..n]).is_none() {
        tell_names(&rt);
        return;
    }
    let mut text = [0u8; 65536];
    let input = stdio::read_whole(&rt, &mut text);
    let mut out = [0u8; 131072];
    let end = answer_named(&name[..n], &text, input, &mut out);
    stdio::write_whole(&rt, &out[..end]);
}

// Whether there is more than one argument: the program's own name has the number 0.
fn more_arguments<R: Env>(rt: &R) -> bool {
    let mut second = [0u8; 1];
    !matches!(rt.arg(2, &mut second), Err(FillError::NotPresent))
}

// The job that has this name.
fn find_job(name: &[u8]) -> Option<Job>
    ensures { FindsJob name.now result }
{
    match name {
        b"sheet" => Some(Job::Sheet),
        b"import" => Some(Job::Import),
        b"import-wide" => Some(Job::ImportWide),
        b"named" => Some(Job::Named),
        b"same" => Some(Job::Same),
        b"exchange" => Some(Job::Exchange),
        b"intersection" => Some(Job::Intersection),
        b"tower" => Some(Job::Tower),
        b"cycles" => Some(Job::Cycles),
        b"to-cycles" => Some(Job::ToCycles),
        _ => None,
    }
}

// Tells, in one line, what the argument may be.
fn tell_names<R: Eprint>(rt: &R) {
    let _ = rt.eprint(
        "farey: the one argument is sheet, import, import-wide, named, same, exchange, ",
    );
    let _ = rt.eprintln("intersection, tower, cycles or to-cycles");
}
