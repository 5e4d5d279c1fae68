//! What "rounded as IEEE 754 says" means (specs/Meaning.antt), and that the changes of width and the square root have
//! that meaning.

#![tactic(auto)]

ghost use Rattle.rounding.specs.Meets.{OperationsMeetIeee754};

/// A narrowed number and a square root are the nearest values of the format, of two as near the one that ends in an
/// even digit; and what becomes of an infinity, a NaN, a zero and a number below zero.
pub fn operations_meet_ieee_754()
    ensures { OperationsMeetIeee754 }
{}
