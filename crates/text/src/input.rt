// What reading standard input came to, as one value: `stdio` makes it, and a program hands it on whole, with its
// buffer. Below both, so that the crates of the texts stand on no read and no write.
ghost use Rattle.text.specs.Inner.TextEnds.{TextEnds};

// What reading all of standard input into a buffer came to.
#[derive(Clone, Copy)]
pub enum Input {
    // So many bytes, at the start of the buffer, and whether the input goes on behind them. Only a full buffer leaves
    // some behind.
    Read(usize, bool),
    // A read failed, which standard error says: what came isn't the input.
    Failed,
}

// Where the text of an input of n bytes ends in the buffer: at n, or at the buffer's end where there aren't so many.
pub fn text_end(buffer: &[u8], n: usize) -> usize
    ensures { TextEnds n buffer.now result }
{
    n.min(buffer.len())
}
