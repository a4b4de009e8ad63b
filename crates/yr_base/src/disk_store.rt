//! The files of the machine.

ghost use Rattle.std.specs.Prelude.{◌≡◌, None};

use crate::reading::read_whole;
use crate::sink::PutAnswer;
use crate::store::{ReadAnswer, Store, WriteAnswer};
use crate::writing::write_whole;
use std::alloc::Global;
use std::fs::File;
use std::rt::Files;

/// The files of the machine. It counts every error, and tells neither files nor calls.
#[derive(Drop)]
pub struct DiskStore<R: Files + Drop> {
    rt: R,
    fault_count: u64,
}

impl<R: Files + Drop> DiskStore<R> {
    /// The files that a runtime reaches.
    pub fn new(rt: R) -> DiskStore<R>
        ensures { result.fault_count ≡ 0 }
    {
        DiskStore { rt, fault_count: 0 }
    }
}

impl<R: Files + Drop> Store for DiskStore<R> {
    ghost files = { λ _. None };

    ghost trace = { λ _. None };

    ghost faults = { λ s. s.fault_count };

    fn read_file(
        &mut self,
        alloc: Global,
        name: &str,
        limit: u32,
        into: &mut Vec<u8>,
    ) -> ReadAnswer {
        let Ok(mut file) = File::open(&self.rt, name) else {
            self.fault_count = self.fault_count.saturating_add(1);
            return ReadAnswer::Failed;
        };
        read_whole(&mut file, limit, into, &mut self.fault_count)
    }

    fn write_file(&mut self, alloc: Global, name: &str, bytes: &[u8]) -> WriteAnswer {
        let Ok(mut file) = File::create(&self.rt, name) else {
            self.fault_count = self.fault_count.saturating_add(1);
            return WriteAnswer::Failed;
        };
        match write_whole(&mut file, bytes, &mut self.fault_count) {
            PutAnswer::Done => WriteAnswer::Done,
            PutAnswer::Failed => WriteAnswer::Failed,
        }
    }
}

#[cfg(test)]
mod tests {
    use super::*;
    use std::test::Fail;
    use std::{fs, process};

    #[test]
    fn the_disk_is_read_up_to_a_limit(rt: HostRuntime) -> Result<(), Fail> {
        let alloc = rt.alloc();
        let mut store = DiskStore::new(rt.clone()?);
        let path = format!(in alloc; "/tmp/yr_base-{}", process::id(rt.process()))?;
        let name = path.as_str();
        let content = [7u8; 40_000];
        assert_eq!(rt; store.write_file(alloc, name, &content), WriteAnswer::Done);
        for (file, limit, answer, len) in [
            (name, 40_001, ReadAnswer::Done, 40_000),
            (name, 40_000, ReadAnswer::Done, 40_000),
            (name, 39_999, ReadAnswer::Long, 40_000),
            (name, 0, ReadAnswer::Long, 1),
            ("/tmp/yr_base-missing", 9, ReadAnswer::Failed, 0),
            ("/tmp", 9, ReadAnswer::Failed, 0),
        ] {
            let mut into = Vec::new(alloc);
            assert_eq!(rt;
                store.read_file(alloc, file, limit, &mut into),
                answer,
                "{file} at {limit}"
            );
            assert_eq!(rt;
                into.as_slice() == &content[..len],
                true,
                "{file} at {limit}"
            );
        }
        assert_eq!(rt; store.write_file(alloc, "/tmp", b"x"), WriteAnswer::Failed);
        assert_eq!(rt; store.fault_count, 3);
        fs::remove_file(&rt, name)?;
        Ok(())
    }
}
