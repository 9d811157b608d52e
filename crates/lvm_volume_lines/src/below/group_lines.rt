//! Passed on from `lvm_group_lines`.

pub use lvm_range_lines::below::group_lines::{
    do_mkvg, do_varyon, list_disk, list_group, list_volume,
};
