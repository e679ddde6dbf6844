// The house file, an outline as bytes: its format, and numbers in bytes. The calls that read and write whole files are in `reader` and `writer`.
#![tactic(auto)]

pub mod bytes;
pub mod sizes;
