//! Lists of building calls: the book of a list, and what is proved of every list, for any calls that are given by
//! what they add to a path.

#![tactic(auto)]

/// What a call answers beside the record: the refusal's number, 0 where nothing is refused, and the joint word, 0
/// where there is none.
#[derive(Clone, Copy)]
pub struct Reply {
    pub number: u8,
    pub word: u64,
}
