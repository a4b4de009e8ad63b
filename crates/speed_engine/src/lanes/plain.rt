// The plain byte loops.
ghost use Rattle.std.specs.Prelude.{◌≤◌, length};

#[inline(never)]
pub fn skip_to(set: &[u8], file: &[u8], from: usize) -> usize
    requires { from ≤ length file.now }
{
    for at in from..file.len() {
        if set.contains(&file[at]) {
            return at;
        }
    }
    file.len()
}

#[inline(never)]
pub fn same_xor(a: &[u8], b: &[u8], key: u8) -> bool {
    if a.len() != b.len() {
        return false;
    }
    for at in 0..a.len() {
        if a[at] ^ key != b[at] {
            return false;
        }
    }
    true
}

#[inline(never)]
pub fn same_fold(a: &[u8], b: &[u8]) -> bool {
    if a.len() != b.len() {
        return false;
    }
    for at in 0..a.len() {
        if a[at].to_ascii_lowercase() != b[at].to_ascii_lowercase() {
            return false;
        }
    }
    true
}
