mod fixtures;
mod hold;
mod mwc;
mod path;
mod pbuf;
mod sched;
mod stale;
mod status;
