// What each job answers to what was read: the crates of the texts make it, and no other job's is taken.
ghost use Rattle.std.specs.Prelude.{◌≤◌, length};
ghost use Rattle.text.specs.Input.{AnswersInput};
ghost use Rattle.decimal.specs.Writing.{Puts};
ghost use Rattle.farey.specs.Jobs.{bytes_of, MeansOf, AnswersName};

use crate::{Job, find_job};
use subgroup_texts::two_texts::Asked;
use text::input::{Input, text_end};

// What the job of this name writes for an input, whose bytes stand at the front of the buffer, from the front of `out`;
// where it ends: at 0, with nothing changed, where no job has the name, or the input could not be read.
pub fn answer_named(name: &[u8], buffer: &[u8], input: Input, out: &mut [u8; 131072]) -> usize
    ensures { AnswersName name.now buffer.now result out.old out.new
        input }
{
    let Some(job) = find_job(name) else {
        return 0;
    };
    answer(job, buffer, input, out)
}

// The same for a job.
fn answer(job: Job, buffer: &[u8], input: Input, out: &mut [u8; 131072]) -> usize
    ensures { AnswersInput (bytes_of job) (MeansOf job) buffer.now result out.old
        out.new input }
{
    let Input::Read(n, longer) = input else {
        return 0;
    };
    let end = text_end(buffer, n);
    answer_text(job, &buffer[..end], longer, out)
}

// The same for a text, where `longer` says that the input goes on behind it.
fn answer_text(job: Job, text: &[u8], longer: bool, out: &mut [u8]) -> usize
    requires { 131072 ≤ length out.old }
    ensures { Puts (bytes_of job longer text.now) 0 result out.old out.new }
{
    match job {
        Job::Sheet => query_text::sheet_text::answer(text, longer, out),
        Job::Import => symbol_texts::import_text::answer(text, longer, false, out),
        Job::ImportWide => symbol_texts::import_text::answer(text, longer, true, out),
        Job::Named => symbol_texts::named_text::answer(text, longer, out),
        Job::Same => subgroup_texts::two_texts::answer(text, longer, Asked::Same, out),
        Job::Exchange => symbol_texts::exchange_text::answer(text, longer, out),
        Job::Intersection => {
            subgroup_texts::two_texts::answer(text, longer, Asked::Intersection, out)
        }
        Job::Tower => subgroup_texts::tower_text::answer(text, longer, out),
        Job::Cycles => cycle_texts::cycles_text::answer(text, longer, out),
        Job::ToCycles => cycle_texts::to_cycles_text::answer(text, longer, out),
    }
}
