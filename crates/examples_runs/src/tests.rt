//! The tables.

use crate::judging::hold;
use crate::{conditions, faults, images, limits, modules, refusals, scans, sweeps, words};

#[test]
fn answers(rt: HostRuntime) {
    let alloc = rt.alloc();
    hold(&rt, alloc, scans::FILES, scans::ROWS, scans::COUNT);
    hold(
        &rt,
        alloc,
        conditions::FILES,
        conditions::ROWS,
        conditions::COUNT,
    );
    hold(&rt, alloc, modules::FILES, modules::ROWS, modules::COUNT);
    hold(&rt, alloc, sweeps::FILES, sweeps::ROWS, sweeps::COUNT);
}

#[test]
fn words_and_refusals(rt: HostRuntime) {
    let alloc = rt.alloc();
    hold(&rt, alloc, refusals::FILES, refusals::ROWS, refusals::COUNT);
    hold(&rt, alloc, words::FILES, words::ROWS, words::COUNT);
}

#[test]
fn sizes(rt: HostRuntime) {
    let alloc = rt.alloc();
    hold(&rt, alloc, limits::FILES, limits::ROWS, limits::COUNT);
}

#[test]
fn written_images(rt: HostRuntime) {
    let alloc = rt.alloc();
    hold(&rt, alloc, images::FILES, images::ROWS, images::COUNT);
    match images::cuts(alloc) {
        Ok(rows) => hold(&rt, alloc, images::FILES, rows.as_str(), 154),
        Err(_) => panic!(rt; "out of memory"),
    }
}

#[test]
fn failing_calls(rt: HostRuntime) {
    let alloc = rt.alloc();
    hold(&rt, alloc, faults::FILES, faults::ROWS, faults::COUNT);
}
