use crate::memory_sink::MemorySink;
use crate::memory_store::MemoryStore;
use crate::sink::{PutAnswer, Sink};
use crate::store::{ReadAnswer, Store, WriteAnswer};
use std::alloc::Global;
use std::test::Fail;

fn read(store: &mut MemoryStore, alloc: Global, name: &str, limit: u32) -> (ReadAnswer, Vec<u8>) {
    let mut into = Vec::new(alloc);
    let answer = store.read_file(alloc, name, limit.min(100), &mut into);
    (answer, into)
}

#[test]
fn a_store_in_memory_answers_with_ample_memory(rt: HostRuntime) -> Result<(), Fail> {
    let alloc = rt.alloc();
    let mut store = MemoryStore::new(alloc)?;
    store.add(alloc, "a", b"old")?;
    store.add(alloc, "a", b"abc")?;
    store.fail_at(alloc, 3)?;
    for (name, limit, answer, bytes) in [
        ("a", 3, ReadAnswer::Done, "abc"),
        ("a", 1, ReadAnswer::Long, "ab"),
        ("a", 3, ReadAnswer::Failed, ""),
        ("b", 3, ReadAnswer::Failed, ""),
        ("a", 9, ReadAnswer::Done, "abc"),
    ] {
        let (got, into) = read(&mut store, alloc, name, limit);
        assert_eq!(rt; got, answer, "{name} at {limit}");
        assert_eq!(rt; into.as_slice(), bytes.as_bytes(), "{name} at {limit}");
    }
    assert_eq!(rt; store.write_file(alloc, "b", b"x"), WriteAnswer::Done);
    assert_eq!(rt; store.get("b") == Some(b"x".as_slice()), true);
    assert_eq!(rt; store.get("c").is_none(), true);
    Ok(())
}

#[test]
fn a_sink_in_memory_answers_with_ample_memory(rt: HostRuntime) -> Result<(), Fail> {
    let mut sink = MemorySink::new(rt.alloc(), 40)?;
    sink.fail_at(rt.alloc(), 2, 9)?;
    sink.fail_at(rt.alloc(), 2, 1)?;
    assert_eq!(rt; sink.put(b"ab"), PutAnswer::Done);
    assert_eq!(rt; sink.put(b"cd"), PutAnswer::Failed);
    assert_eq!(rt; sink.put(b"18446744073709551615-70fed0"), PutAnswer::Done);
    assert_eq!(rt; sink.put(b"0123456789x"), PutAnswer::Failed);
    assert_eq!(rt;
        sink.bytes(),
        b"abc18446744073709551615-70fed00123456789".as_slice()
    );
    Ok(())
}
