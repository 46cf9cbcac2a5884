//! What a command begins with.

use dvd_words::Settings;
use std::alloc::Global;

/// Where the memory of a run comes from, and what its arguments ask for. One value, since every command that takes
/// memory begins with both. Memory is taken from `alloc` before the first byte is read, and not later: so a command
/// without memory is refused, and no run ends for want of it.
#[derive(Drop)]
pub(crate) struct Start<'a> {
    pub alloc: Global,
    pub settings: &'a Settings,
}
