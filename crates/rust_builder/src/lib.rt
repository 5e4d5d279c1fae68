//! The Rust's PathBuilder and its outline of a shape on growing lists (specs/PathBuilder.antt, specs/AddTo.antt), and
//! that every list of building calls that finds room leaves what they leave (specs/SameAsRust.antt). No code.

#![tactic(auto)]

ghost use Rattle.rust_builder.specs.SameAsRust.{EveryListIsSameAsRust, EveryFreshListIsSameAsRust, EveryListFindsRoom};

/// Every list of building calls that finds room leaves in the buffers what the Rust's builder holds after it: from
/// any record with both counts 0, and so from the fresh one.
pub fn every_list_is_same_as_rust()
    ensures empty { EveryListIsSameAsRust }
    ensures fresh { EveryFreshListIsSameAsRust }
{}

/// There are buffers in which it finds room: as long as what the Rust's builder holds after it.
pub fn every_list_finds_room()
    ensures { EveryListFindsRoom }
{}
