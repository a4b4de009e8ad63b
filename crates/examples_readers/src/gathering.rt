use std::alloc::{AllocError, Global};
use std::test::Fail;
use yr_base::MemoryStore;
use yr_lexer::{Tokens, gather};

/// The names of the files in the order of reading, and the tokens.
fn shown(alloc: Global, gathered: &Tokens) -> Result<String, AllocError> {
    let mut out = String::new(alloc);
    for file in gathered.files() {
        out.push_str(file.name.as_str())?;
        out.push_str(" ")?;
    }
    out.push_str("|")?;
    for k in 0..gathered.tokens().len().min(100) {
        out.push_str(" ")?;
        out.push_str(str::from_utf8(gathered.text(k as u32)).unwrap_or("?"))?;
    }
    Ok(out)
}

fn outcome(alloc: Global, store: &mut MemoryStore, root: &str) -> Result<String, AllocError> {
    match gather(alloc, store, root) {
        Ok(gathered) => shown(alloc, &gathered),
        Err(fault) => format!(in alloc; "{fault}"),
    }
}

/// Files `c0.yar` to `c17.yar`, each but the last including the next.
fn add_chain(alloc: Global, store: &mut MemoryStore) -> Result<(), Fail> {
    for k in 0..17 {
        let name = format!(in alloc; "c{k}.yar")?;
        let next = k + 1;
        let text = format!(in alloc; "include \"c{next}.yar\" rule r{k}")?;
        store.add(alloc, name.as_str(), text.as_bytes())?;
    }
    store.add(alloc, "c17.yar", b"rule r17")?;
    Ok(())
}

#[test]
fn files_are_gathered_with_their_includes(rt: HostRuntime) -> Result<(), Fail> {
    let alloc = rt.alloc();
    let mut store = MemoryStore::new(alloc)?;
    for (name, text) in [
        ("a.yar", "include \"b.yar\""),
        ("b.yar", "include \"a.yar\""),
        ("self.yar", "\n include \"self.yar\""),
        ("gone.yar", "rule include \"no.yar\""),
        ("float.yar", "rule a { condition: 1.5 > 1 }"),
        ("open.yar", "rule a { strings: $a = \"x"),
        ("late.yar", "include \"no.yar\" 1.5"),
        ("into.yar", "\ninclude \"open.yar\""),
        ("inside.yar", "rule a { condition: include \"true.yar\" }"),
        ("true.yar", "true"),
        ("twice.yar", "include \"true.yar\" and include \"true.yar\""),
        ("empty.yar", "\n\ninclude \"\""),
        ("bytes.yar", "include\n\"\\xff\""),
        (
            "d/root.yar",
            "include \"/true.yar\" include \"near.yar\" include \"../x\"",
        ),
        ("/true.yar", "false"),
        ("d/near.yar", "include \"e/f\" 1"),
        ("d/e/f", "include \"g\" 2"),
        ("d/e/g", "3"),
        ("d/../x", "4"),
        ("ends.yar", "include \"last.yar\" \"true.yar\""),
        ("last.yar", "include include"),
        ("escaped.yar", "include \"tr\\x75e.yar\""),
    ] {
        store.add(alloc, name, text.as_bytes())?;
    }
    add_chain(alloc, &mut store)?;
    for (root, wanted) in [
        ("a.yar", "b.yar:1: a.yar includes itself"),
        ("self.yar", "self.yar:2: self.yar includes itself"),
        ("c0.yar", "c16.yar:1: c17.yar stands too deep"),
        ("gone.yar", "cannot read no.yar"),
        ("no.yar", "cannot read no.yar"),
        ("float.yar", "float.yar: line 1: a number that is not whole"),
        ("open.yar", "open.yar: line 1: no end"),
        ("late.yar", "late.yar: line 1: a number that is not whole"),
        ("into.yar", "open.yar: line 1: no end"),
        (
            "inside.yar",
            "inside.yar true.yar | rule a { condition : true }",
        ),
        ("twice.yar", "twice.yar true.yar true.yar | true and true"),
        ("empty.yar", "empty.yar:3: no file name"),
        ("bytes.yar", "bytes.yar:1: no file name"),
        (
            "d/root.yar",
            "d/root.yar /true.yar d/near.yar d/e/f d/e/g d/../x | false 3 2 1 4",
        ),
        (
            "ends.yar",
            "ends.yar last.yar | include include \"true.yar\"",
        ),
        ("escaped.yar", "escaped.yar true.yar | true"),
    ] {
        let got = outcome(alloc, &mut store, root)?;
        assert_eq!(rt; got.as_str(), wanted, "{root}");
    }
    let deepest = outcome(alloc, &mut store, "c1.yar")?;
    assert_eq!(rt; deepest.as_str().starts_with("c1.yar c2.yar"), true);
    let blanks = vec![in alloc; b' '; 6_000_000]?;
    store.add(alloc, "true.yar", blanks.as_slice())?;
    store.add(
        alloc,
        "two.yar",
        b"include \"true.yar\" include \"true.yar\" x",
    )?;
    store.add(
        alloc,
        "three.yar",
        b"include \"two.yar\" include \"true.yar\"",
    )?;
    let two = outcome(alloc, &mut store, "two.yar")?;
    assert_eq!(rt; two.as_str(), "two.yar true.yar true.yar | x");
    let three = outcome(alloc, &mut store, "three.yar")?;
    assert_eq!(rt; three.as_str(), "true.yar: too long");
    Ok(())
}
