// The face for C and Rust: the entries for set I, exported under plain names. A slice crosses as a pointer and a length. Each
// function answers document 01's number. Nothing is asked of a caller but what C and Rust ask of such pointers: see include/maesikkong.h.
#![tactic(auto)]

pub mod check;
pub mod envelopes;
pub mod key;
pub mod key_records;
pub mod sign;
pub mod signature_records;
pub mod streams;
