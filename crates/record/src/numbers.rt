// The numbers of the server, each a type of its own, so that none is passed for another.

// Where an identifier stands in its series; the first has rank 0.
#[derive(Clone, Copy, PartialEq, Eq, PartialOrd, Ord, Debug)]
pub struct Rank(pub u64);

// A clock's milliseconds, as the clock gave them.
#[derive(Clone, Copy, PartialEq, Eq, PartialOrd, Ord, Debug)]
pub struct Reading(pub u64);

// The count of a record among those written to the disk, from 1.
#[derive(Clone, Copy, PartialEq, Eq, PartialOrd, Ord, Debug)]
pub struct Sequence(pub u64);

// What is printed on a label.
#[derive(Clone, Copy, PartialEq, Eq, PartialOrd, Ord, Debug)]
pub struct Identifier(pub u64);
