//! The options that stand so far.

use lvm_num::{Mode, Name, Policy};

/// The options of a `mkvg`.
#[derive(Clone, Copy)]
pub struct MkvgOptions {
    pub force: bool,
    pub name: Option<Name>,
    pub mib: Option<u16>,
}

/// The options of a `mklv`.
#[derive(Clone, Copy)]
pub struct MklvOptions {
    pub name: Option<Name>,
    pub copies: Option<u8>,
    pub mode: Option<Mode>,
    pub policy: Option<Policy>,
}
