// The places of the tables in the work space (specs/Inner/Work.antt).
pub const LABEL: usize = 4096;

pub const HELD: usize = 8192;

pub const DONE: usize = 12288;

pub const TODO: usize = 20480;
