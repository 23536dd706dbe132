// The mtime and the inputs' ids of an output: at most 64 inputs.
ghost use Rattle.std.specs.Prelude.{◌^◌, ◌<◌};

use terms::Few;

#[derive(Clone, Copy)]
pub struct DepsEntry {
    pub(super) mtime: u64,
    pub(super) inputs: Few<u32, 64>,
    ghost timed: { mtime < 2 ^ 64 },
}
