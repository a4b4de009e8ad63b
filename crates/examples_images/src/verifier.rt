//! Images that are wellformed, and first faults of others.

mod codes;
mod samples;

use codes::{BAD, GOOD, image, place_and_rows};
use samples::{CHANGES, sample, spaced};
use std::alloc::{AllocError, Global};
use std::test::Fail;
use yr_image::ImageFault;
use yr_verifier::verify;

fn fault(bytes: &[u8]) -> Option<ImageFault> {
    match verify(bytes) {
        Ok(_) => None,
        Err(fault) => Some(fault),
    }
}

// The first fault of an image with a byte changed.
fn fault_with(at: usize, byte: u8) -> Option<ImageFault> {
    let mut bytes = sample();
    if at < 153 {
        bytes[at] = byte;
    }
    fault(&bytes)
}

// Whether each front of the image that is shorter has its fault.
fn fronts_fail() -> bool {
    let bytes = sample();
    for n in 0..153 {
        let wanted = if n < 64 {
            ImageFault::TooShort
        } else {
            ImageFault::Length
        };
        if fault(&bytes[..n]) != Some(wanted) {
            return false;
        }
    }
    true
}

fn fault_inside() -> Option<ImageFault> {
    let mut bytes = [0xff; 170];
    let part = sample();
    for k in 0..153 {
        bytes[7 + k] = part[k];
    }
    fault(&bytes[7..160])
}

#[test]
fn samples_and_changes(rt: HostRuntime) -> Result<(), Fail> {
    assert_eq!(rt; fault(&sample()), None);
    assert_eq!(rt; fault(&spaced(b'n')), None);
    assert_eq!(rt; fault(&spaced(b'1')), Some(ImageFault::Name(0, 0)));
    assert_eq!(rt; fault_inside(), None);
    assert!(rt; fronts_fail());
    for (at, byte, wanted) in CHANGES {
        assert_eq!(rt; fault_with(at, byte), Some(wanted), "byte {at}");
    }
    Ok(())
}

// The first fault of the image with these rows of code, of its second rule.
fn fault_of(alloc: Global, rows: &str) -> Result<Option<ImageFault>, AllocError> {
    let bytes = image(alloc, rows)?;
    Ok(fault(&bytes))
}

#[test]
fn codes_of_rules(rt: HostRuntime) -> Result<(), Fail> {
    for rows in GOOD.split(';') {
        assert_eq!(rt; fault_of(rt.alloc(), rows)?, None, "{rows}");
    }
    for line in BAD.split(';') {
        let (place, rows) = place_and_rows(line);
        assert_eq!(rt;
            fault_of(rt.alloc(), rows)?,
            Some(ImageFault::Code(1, place)),
            "{line}"
        );
    }
    Ok(())
}
