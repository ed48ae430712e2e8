//! `labels` for mm_label, `keys` for mm_arena and `queues` for mm_queue; `storms` for mm_workload; and `scripts` for mm_script.

mod keys;
mod labels;
mod queues;
mod same;
mod scripts;
mod storms;
