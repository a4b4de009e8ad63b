//! Images, checked and timed.

use crate::stopwatch::{RUNS, Stopwatch};
use crate::verifier::images::{Form, image};
use std::alloc::Global;
use yr_image::ImageFault;
use yr_verifier::verify;

fn text_of(fault: Option<ImageFault>) -> &'static str {
    match fault {
        None => "wellformed",
        Some(ImageFault::Section(_)) => "a section does not fit",
        Some(ImageFault::Index(_, _)) => "a row is out of range",
        Some(ImageFault::Name(_, _)) => "a name is bad",
        Some(ImageFault::Code(_, _)) => "code is not wellformed",
        Some(_) => "not wellformed",
    }
}

fn fault(bytes: &[u8]) -> Option<ImageFault> {
    match verify(bytes) {
        Ok(_) => None,
        Err(fault) => Some(fault),
    }
}

/// What the image of a form and a size is.
pub fn said(alloc: Global, form: Form, size: u32) -> anyhow::Result<&'static str> {
    let bytes = image(alloc, form, size)?;
    Ok(text_of(fault(&bytes)))
}

/// Prints how fast the image of a form and a size is checked.
pub fn time(rt: HostRuntime, name: &str, form: Form, size: u32) -> anyhow::Result<()> {
    let bytes = image(rt.alloc(), form, size)?;
    let mut watch = Stopwatch::new();
    let mut last = None;
    for _ in 0..RUNS {
        watch.start(rt)?;
        last = fault(&bytes);
        watch.stop(rt)?;
    }
    let megabytes = std::num::nearest_usize_to_f64(bytes.len()) / 1e6;
    let (thousandths, speed) = (watch.least * 1e3, watch.millions(bytes.len()));
    let answer = text_of(last);
    println!(rt; "{name}: {megabytes:.1} MB, {thousandths:.2} ms, {speed:.0} MB/s ({answer})")?;
    Ok(())
}
