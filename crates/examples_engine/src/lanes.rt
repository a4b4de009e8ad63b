use yr_lanes::{SkipSet, same_fold, same_xor, skip_to};

/// Places and lengths that go over several blocks and a rest.
const SIZE: usize = 130;

// The byte that is sought stands at each place, and the search begins at each.
#[test]
fn finds_the_next_place(rt: HostRuntime) {
    for place in 0..SIZE {
        let mut file = [b'a'; SIZE];
        file[place] = b'q';
        for from in 0..=SIZE {
            let wanted = if from <= place { place } else { SIZE };
            for set in [b"q".as_slice(), b"xq", b"xyq", b"wxyzq", b"qqqqq"] {
                assert_eq!(rt; skip_to(set, &file, from), wanted, "{place} from {from}");
            }
            assert_eq!(rt; skip_to(b"", &file, from), SIZE, "empty set from {from}");
        }
    }
    let mut bytes = [0; 256];
    for byte in 0..=255u8 {
        bytes[byte as usize] = byte;
    }
    let every = SkipSet::new(&bytes);
    let upper = SkipSet::new(&bytes[128..]);
    for byte in 0..=255u8 {
        assert_eq!(rt; every.find_from(&[byte], 0), 0, "{byte} in all bytes");
        let wanted = if byte < 128 { 1 } else { 0 };
        assert_eq!(rt;
            upper.find_from(&[byte], 0),
            wanted,
            "{byte} in the upper half"
        );
    }
}

// One byte differs at each place of each length.
#[test]
fn compares_each_place(rt: HostRuntime) {
    let same = [b'a'; SIZE];
    let (keyed, capitals) = ([b'a' ^ 0x5a; SIZE], [b'A'; SIZE]);
    for length in 0..=SIZE {
        let a = &same[..length];
        assert!(rt; same_xor(a, a, 0), "equal, {length}");
        assert!(rt;
            same_xor(a, &keyed[..length], 0x5a),
            "under a key, {length}"
        );
        assert!(rt; same_fold(a, a), "equal, {length}");
        assert!(rt; same_fold(a, &capitals[..length]), "in capitals, {length}");
        for place in 0..length {
            let mut other = [b'a'; SIZE];
            other[place] = b'b';
            assert!(rt; !same_xor(a, &other[..length], 0), "{place} of {length}");
            assert!(rt; !same_fold(a, &other[..length]), "{place} of {length}");
        }
    }
    assert!(rt; !same_xor(&same, &same[1..], 0), "lengths");
    assert!(rt; !same_fold(&same, &same[1..]), "lengths");
    for (a, b, wanted) in [
        (b"AZ[", b"az{", false),
        (b"@Az", b"`aZ", false),
        (b"AZ[", b"az[", true),
    ] {
        assert_eq!(rt; same_fold(a, b), wanted);
    }
}
