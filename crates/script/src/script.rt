//! A script and what of it was read.
ghost use Rattle.std.specs.Prelude.{◌+◌, ◌^◌, ◌<◌, length};

/// A script: what is to be read of it, and how many lines were read.
#[derive(Drop)]
pub struct Script<'a> {
    rest: &'a [u8],
    line: u64,
    ghost fits: { line + length rest.now < 2 ^ 64 },
}

mod lines;
