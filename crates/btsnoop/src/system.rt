// What the commands reach of the system.
use program_io::Streams;
use std::alloc::Global;

#[derive(Drop)]
pub struct System<'a, R> {
    pub files: &'a R,
    pub alloc: Global,
    pub streams: Streams,
}
