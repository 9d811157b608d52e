//! What is passed on from the crates below.

pub use crate::table::StaleTable;
pub use lvm_num::{
    Descriptor, DiskSet, LvRow, Memory, Pp, Rows, Stamp, Status, has_member, with_volumes,
};
