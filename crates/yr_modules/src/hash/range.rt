//! Ranges of a file.

ghost use Rattle.std.specs.Prelude.{◌≡◌, option_map};
ghost use Rattle.yr_modules.specs.Hash.Digests.{range_in};

/// The bytes of a range, by its first byte and its size. None where it does not lie in the file.
pub(crate) fn range_in(file: &[u8], from: i64, size: i64) -> Option<&[u8]>
    ensures { option_map (λ bytes. bytes.now) result ≡ range_in file.now from size }
{
    if from < 0 || size < 0 {
        return None;
    }
    let (from, size) = (from as u64, size as u64);
    if from + size > file.len() as u64 {
        return None;
    }
    Some(&file[from as usize..(from + size) as usize])
}
