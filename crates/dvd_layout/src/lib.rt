//! The layout of a disk: its shape, its zones, and the plan of its ECC blocks
//! (ECMA-267, section 5, Format of the Information Zone).
//!
//! - `entry`: one ECC block of a plan, and what is known of its sixteen data frames.
//! - `fault`: why a layout is refused.
//! - `laws`: what holds of every valid layout.
//! - `layout`: the lengths of a disk, which make a valid layout.
//! - `place`: where image sectors are on the disk.
//! - `plan`: the zone table, and the plan entry by entry.
//! - `zone`: a zone of the disk.
#![tactic(auto)]

mod entry;
mod fault;
pub mod laws;
mod layout;
mod place;
mod plan;
#[cfg(test)]
mod tests;
mod zone;

pub use entry::{BlockPlan, Content, id_of, rule_of};
pub use fault::LayoutFault;
pub use layout::{Layout, Shape, Zones, check_initial};
pub use plan::{DATA_FIRST, lead_in_block};
pub use zone::Zone;
