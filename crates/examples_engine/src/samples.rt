//! The sample images: their bytes, written out.

use crate::images::put;
use crate::scanning::{said, truth};
use std::alloc::{AllocError, Global};
use std::test::Fail;

// A rule `a` whose condition is true.
fn true_rule(alloc: Global) -> Result<Vec<u8>, AllocError> {
    let mut bytes = Vec::new(alloc);
    bytes.extend_from_slice(b"YRI\x01")?;
    put(&mut bytes, &[153, 1, 0, 0, 0, 0, 0, 0, 0, 1, 0, 0, 0, 2, 1])?;
    put(&mut bytes, &[0, 1, 0, 0, 0, 0, 0, 2])?;
    put(&mut bytes, &[0; 6])?;
    put(&mut bytes, &[0x0103, 0, 0, 0, 0, 0, 0, 0])?;
    bytes.extend_from_slice(b"a")?;
    Ok(bytes)
}

// A rule with a string whose atom the automaton lacks.
fn no_outputs(alloc: Global) -> Result<Vec<u8>, AllocError> {
    let mut bytes = Vec::new(alloc);
    bytes.extend_from_slice(b"YRI\x01")?;
    put(&mut bytes, &[202, 1, 0, 0, 1, 1, 0, 0, 0, 1, 0, 0, 0, 2, 2])?;
    put(&mut bytes, &[0, 1, 0, 0, 0, 1, 0, 2])?;
    put(&mut bytes, &[1, 1, 0, 0])?;
    put(&mut bytes, &[0, 0, 1 << 8, 0, 0, 0, 0, 0])?;
    put(&mut bytes, &[0; 6])?;
    put(&mut bytes, &[0x000a, 0, 0, 0, 0, 0, 0, 0])?;
    bytes.extend_from_slice(b"ax")?;
    Ok(bytes)
}

// The atoms `ab` and `b` of one string, with the failure node of `ab`.
fn two_atoms(alloc: Global, failure: u32) -> Result<Vec<u8>, AllocError> {
    let mut bytes = Vec::new(alloc);
    bytes.extend_from_slice(b"YRI\x01")?;
    put(&mut bytes, &[338, 1, 0, 0, 1, 2, 0, 0, 0, 4, 3, 2, 0, 2, 2])?;
    put(&mut bytes, &[0, 1, 0, 0, 0, 1, 0, 2])?;
    put(&mut bytes, &[1, 1, 0, 0])?;
    put(&mut bytes, &[0, 0, 2 << 8, 0, 0, 0, 0, 0])?;
    put(&mut bytes, &[0, 0, 1 << 8, 0, 0, 0, 0, 0])?;
    put(&mut bytes, &[0, 2, 0, 0, 0, 0])?;
    put(&mut bytes, &[2, 1, 0, 1, 0, 0])?;
    put(&mut bytes, &[3, 0, 0, 1, 0, 1])?;
    put(&mut bytes, &[3, 0, failure, 2, 1, 1])?;
    put(&mut bytes, &[0x61, 1, 0x62, 2, 0x62, 3])?;
    put(&mut bytes, &[1, 0])?;
    put(&mut bytes, &[0x000a, 0, 0, 0, 0, 0, 0, 0])?;
    bytes.extend_from_slice(b"ax")?;
    Ok(bytes)
}

#[test]
fn samples_find_their_hits(rt: HostRuntime) -> Result<(), Fail> {
    let alloc = rt.alloc();
    let sample = true_rule(alloc)?;
    assert_eq!(rt; truth(alloc, &sample, b"t"), Some(true));
    assert_eq!(rt; truth(alloc, &sample, b""), Some(true));
    let none = no_outputs(alloc)?;
    assert_eq!(rt; said(alloc, &none, "x")?.as_str(), "0:");
    assert_eq!(rt; truth(alloc, &none, b"x"), Some(false));
    let linked = two_atoms(alloc, 2)?;
    assert_eq!(rt; said(alloc, &linked, "ab")?.as_str(), "2: 0+2 1+1");
    let skipping = two_atoms(alloc, 0)?;
    assert_eq!(rt; said(alloc, &skipping, "ab")?.as_str(), "1: 0+2");
    Ok(())
}
