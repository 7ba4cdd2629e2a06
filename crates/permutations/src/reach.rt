// The check 15: the points that are reached from 0, listed with a queue and a mark for each.
ghost use Rattle.std.specs.Prelude.{◌≡◌, ◌<◌, length};
ghost use Rattle.permutations.specs.Pair.{image};
ghost use Rattle.permutations.specs.Check.{check15};
ghost use Rattle.permutations.specs.Inner.Reach.{QueueHolds, Entered, VisitedAt, Two, AllReached};

use crate::image;
use call::refusal::Refusal;

// The points that are reached so far: in a queue, and a mark for each point that is in it. How many they are goes beside
// it: as a field it was read and written in memory for each point, which took half as long again.
#[derive(Drop)]
struct Reached {
    queue: [u16; 3072],
    marks: [bool; 3072],
}

impl Reached {
    // The point x comes to the end of the queue of n points, if it is new; how many there are then.
    fn enter(&mut self, size: usize, x: usize, n: usize) -> usize
        requires { QueueHolds n size self.old.marks self.old.queue × (x < size) }
        ensures { Entered x n size self.old.queue self.new.marks self.new.queue result }
    {
        if self.marks[x] {
            return n;
        }
        self.marks[x] = true;
        self.queue[n] = x as u16;
        n + 1
    }

    // The images of the queue's entry i come to its end, if they are new.
    fn visit(&mut self, s: &[u32], r: &[u32], i: usize, n: usize) -> usize
        requires { Two s.now r.now × QueueHolds n (length s.now) self.old.marks self.old.queue × (i < n) }
        ensures { VisitedAt (image s.now) (image r.now) i n (length s.now)
            self.old.queue self.new.marks self.new.queue result }
    {
        let x = usize::from(self.queue[i]);
        let k = self.enter(s.len(), image(s, x), n);
        self.enter(s.len(), image(r, x), k)
    }
}

// All points that are reached from 0.
fn list_reached(s: &[u32], r: &[u32]) -> Reached
    requires { Two s.now r.now }
    ensures { AllReached s.now r.now result.marks }
{
    let mut reached = Reached {
        queue: [0; 3072],
        marks: [false; 3072],
    };
    reached.marks[0] = true;
    let mut n: usize = 1;
    let mut i: usize = 0;
    // a `while`: its bound grows with each point that is reached
    while i < n {
        n = reached.visit(s, r, i, n);
        i += 1;
    }
    reached
}

// Check 15: the first point that isn't reached from 0 is refused.
pub(crate) fn check_reached(s: &[u32], r: &[u32]) -> Result<(), Refusal>
    requires { Two s.now r.now }
    ensures { result ≡ check15 s.now r.now }
{
    let reached = list_reached(s, r);
    for x in 0..s.len() {
        if !reached.marks[x] {
            return Err(Refusal::Unreached(x));
        }
    }
    Ok(())
}
