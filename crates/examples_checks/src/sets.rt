//! What sets mean, of names in order and of names that are not.

use std::alloc::{AllocError, Global};
use std::test::Fail;
use yr_name_tables::Numbered;
use yr_syntax::SetItem;

// The item that is written so.
fn item(alloc: Global, text: &[u8]) -> Result<SetItem, AllocError> {
    let (front, wild) = match text.strip_suffix(b"*") {
        Some(front) => (front, true),
        None => (text, false),
    };
    let mut name = Vec::new(alloc);
    name.extend_from_slice(front)?;
    Ok(SetItem { name, wild })
}

// The names with numbers from 0 on, sorted after each where they are to be sorted.
fn numbered<'a>(
    alloc: Global,
    names: &[&'a [u8]],
    sorted: bool,
) -> Result<Numbered<'a>, AllocError> {
    let mut all = Numbered::new(alloc);
    for name in names {
        all.add(name)?;
        if sorted {
            all.sort()?;
        }
    }
    Ok(all)
}

#[test]
fn sets_mean_the_same_of_names_in_order(rt: HostRuntime) -> Result<(), Fail> {
    let names = [b"b".as_slice(), b"a", b"ab", b"b", b"abc"];
    let rows: [(&[&[u8]], &[usize]); 7] = [
        (&[b"a*"], &[1, 2, 4]),
        (&[b"b"], &[0, 3]),
        (&[b"*"], &[0, 1, 2, 3, 4]),
        (&[b"ab*", b"a*", b"ab"], &[1, 2, 4]),
        (&[b"abc*", b"b", b"b", b"a"], &[0, 1, 3, 4]),
        (&[b"c*", b"aa", b"abcd*"], &[]),
        (&[], &[]),
    ];
    for sorted in [false, true] {
        let all = numbered(rt.alloc(), &names, sorted)?;
        assert_eq!(rt; all.is_sorted(), sorted);
        for (texts, numbers) in rows {
            let mut items = Vec::new(rt.alloc());
            for text in texts {
                items.push(item(rt.alloc(), text)?)?;
            }
            let met = all.numbers_meant(rt.alloc(), &items)?;
            assert_eq!(rt; met.as_slice(), numbers);
        }
        assert!(rt; all.begins_some(b"abc"));
        assert!(rt; !all.begins_some(b"abcd"));
    }
    Ok(())
}
