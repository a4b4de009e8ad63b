//! A scan by an image, from the image's name to the report: its matches and the truths of its rules.
#![tactic(auto)]

mod bytes;
mod externals;
mod faults;
mod imaging;
mod misfits;
mod owning;
mod reporting;
mod scanning;
mod valuing;

pub use bytes::are_bytes;
pub use faults::refuse_image;
pub use imaging::{scan_by_image, scan_compiled, scan_target};
pub use misfits::{Misfit, first_misfit, refuse_external};
pub use owning::scan_own;
pub use reporting::report;
pub use scanning::{Scan, scan_file};
pub use valuing::values;
