use std::alloc::AllocError;
use std::test::Fail;
use yr_workload::make;

// The line of the first rule of the number 1, and the file of its first two pieces.
const LINE: &[u8] = b"rule r0 { strings: $a = \"aqqdmskd\" ascii condition: $a }\n";

const PIECES: &[u8] = b"aqqdmskd\0B\0Q\0Y\0K\0V\0M\0V\0S\0\0";

#[test]
fn makes_a_workload(rt: HostRuntime) -> Result<(), Fail> {
    let alloc = rt.alloc();
    let work = make(alloc, 1, 2).map_err(|_| AllocError)?;
    assert_eq!(rt; work.rules.starts_with(LINE), true);
    assert_eq!(rt; work.file.as_slice(), PIECES);
    let empty = make(alloc, 18_446_744_073_709_551_615, 0).map_err(|_| AllocError)?;
    assert_eq!(rt; empty.file.len(), 0);
    Ok(())
}
