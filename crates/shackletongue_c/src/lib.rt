//! The functions for programs in C and Rust, as include/shackletongue.h declares them: the static library that
//! bindings/build makes. Each calls the function of the same name of one of the crates ffi_floats, ffi_shape, ffi_path,
//! ffi_outline, ffi_reader, ffi_panel and ffi_refusals, and promises what that one promises.

#![tactic(auto)]

mod numbers;
mod outlines;
mod panel_files;
mod paths;
mod reading;
mod refusals;
mod shaping;
