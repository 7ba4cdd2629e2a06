// Standard input read to its end and standard output written whole, for the programs.
//
// The end of the input is a read that answers 0, and nothing else is taken for it: after the last bytes there is one
// more read. A read or a write that fails is told in one line on standard error and isn't tried again.
#![tactic(auto)]

ghost use Rattle.std.specs.Prelude.{◌≤◌, ◌≡◌, length};
ghost use Rattle.stdio.specs.Inner.Input.{Held, Further};

use std::io;
use std::io::Read;
use text::input::Input;

// What standard error says where a read failed.
const UNREAD: &str = "farey: standard input could not be read to its end, so there is no answer";

// What it says where a write failed.
const UNWRITTEN: &str =
    "farey: standard output could not be written whole, so the answer there is cut short";

// All of standard input, or as much of it as the buffer holds.
pub fn read_whole<R: io::Input + Eprint>(rt: &R, buf: &mut [u8]) -> Input
    ensures { Held result buf.new }
{
    let mut reader = rt.reader();
    let mut done = 0;
    // A read says how many bytes came, so that no range counts the turns.
    while done < buf.len() {
        match reader.read(&mut buf[done..]) {
            Ok(0) => {
                return Input::Read(done, false);
            }
            Ok(came) => {
                done += came;
            }
            Err(_) => {
                let _ = rt.eprintln(UNREAD);
                return Input::Failed;
            }
        }
    }
    read_further(rt, &mut reader, done)
}

// Writes all the bytes to standard output, and answers how many of them it took: fewer than all where a write failed,
// which standard error then says.
pub fn write_whole<R: Print + Eprint>(rt: &R, bytes: &[u8]) -> usize
    ensures { result ≤ length bytes.now }
{
    let mut done = 0;
    // A write says how many bytes it took, so that no range counts the turns.
    while done < bytes.len() {
        match rt.write_some(&bytes[done..]) {
            Ok(put) if 0 < put => {
                done += put;
            }
            _ => {
                let _ = rt.eprintln(UNWRITTEN);
                return done;
            }
        }
    }
    done
}

// Whether the input goes on behind the n bytes of a full buffer.
fn read_further<R: Eprint, I: Read>(rt: &R, reader: &mut I, n: usize) -> Input
    ensures { Further n result }
{
    let mut next = [0u8; 1];
    match reader.read(&mut next) {
        Ok(came) => Input::Read(n, 0 < came),
        Err(_) => {
            let _ = rt.eprintln(UNREAD);
            Input::Failed
        }
    }
}
