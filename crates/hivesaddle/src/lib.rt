// The library for C and Rust. Every function is total; an output takes as many values as fit, and the rest of it stays.
#![tactic(auto)]

ghost use Rattle.std.specs.Prelude.{◌≡◌};
ghost use Rattle.hivesaddle.specs.Output.{interface};

pub mod catalogue_lines;
pub mod files;
pub mod hashes;
pub mod queries;
pub mod recordings;
mod replies;

// HS_INTERFACE of the header.
const INTERFACE: u32 = 1;

// The interface that this library has: a program can see whether it is that of the header it was compiled with.
pub fn hs_interface() -> u32
    ensures { result ≡ interface }
{
    INTERFACE
}
