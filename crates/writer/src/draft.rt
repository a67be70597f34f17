// What the bytes of a file are laid by.
ghost use Rattle.std.specs.Prelude.{◌+◌, ◌≤◌};
ghost use Rattle.writer.specs.Writes.{description_of};
ghost use Rattle.writer.specs.Plans.{Ready};

use crate::Contents;
use layout::{Layout, Version};

// Where the sections of a file stand that is to be written, how many entries the tables have, and the file's size.
#[derive(Clone, Copy, Debug, PartialEq, Eq)]
pub(crate) struct Plan {
    pub metrics: u32,
    pub trace: u32,
    pub trace_at: u32,
    pub strings_at: u32,
    pub strings: u32,
    pub volumes_at: u32,
    pub volumes: u32,
    pub size: u32,
}

// What a file is laid out by: its version and layout, what it is made from, a plan for that within the limit, and how many units of its
// name it carries.
#[derive(Clone, Copy)]
pub(crate) struct Draft<'a> {
    pub version: Version,
    pub layout: Layout,
    pub contents: Contents<'a>,
    pub plan: Plan,
    pub units: usize,
    ghost ready: { Ready version layout (description_of contents) plan units },
}

// Where the two numbers of a pair stand in an entry of that size, which has no other numbers.
#[derive(Clone, Copy, Debug, PartialEq, Eq)]
pub(crate) struct Shape {
    pub first: usize,
    pub second: usize,
    pub size: usize,
    ghost ordered: { (first + 4 ≤ second) × (second + 4 ≤ size) },
}
