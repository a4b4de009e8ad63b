//! That what a buffer of bytes holds are bytes.

ghost use Rattle.yr_base.specs.Bytes.{AreBytes};

/// States that these are bytes, numbers below 256. It does nothing: its loop is left out of what is built.
pub fn are_bytes(bytes: &[u8])
    ensures { AreBytes bytes.now }
{
    for k in 0..bytes.len() {
        let _byte = bytes[k];
    }
}
