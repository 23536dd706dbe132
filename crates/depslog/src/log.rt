// A log: its medium, what it knows while it is open, the memory in which a recompaction gathers what is known after it, and whether it is open: a flag beside the
// table, and no Option of it, since the table's memory is had once and stays while the log is closed.
use image::DepsTable;

#[derive(Drop)]
pub struct Log<M> {
    pub(super) medium: M,
    pub(super) table: DepsTable,
    pub(super) spare: DepsTable,
    pub(super) open: bool,
}
