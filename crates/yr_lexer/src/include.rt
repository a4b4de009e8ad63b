//! The names of included files.

ghost use Rattle.std.specs.Prelude.{◌≡◌, ◌≤◌, length, take, string_bytes, IfOk, IsCharBoundary};
ghost use Rattle.yr_lexer.specs.Includes.{folder_of, joined_name};

use std::alloc::{AllocError, Global};

/// How many bytes the folder of a name has, its last `/` among them.
fn folder_len(name: &str) -> usize
    ensures folder { take result name.now ≡ folder_of name.now }
    ensures boundary { IsCharBoundary name.now result }
{
    let bytes = name.as_bytes();
    let mut end = bytes.len();
    while end > 0 && bytes[end - 1] != b'/' {
        end -= 1;
    }
    end
}

/// The name of a file that an include in the file `including` names by `path`.
pub fn joined_name(alloc: Global, including: &str, path: &str) -> Result<String, AllocError>
    ensures { IfOk result (λ name. string_bytes name ≡ joined_name including.now path.now) }
{
    if path.as_bytes().first() == Some(&b'/') {
        return String::from_str(alloc, path);
    }
    let mut name = String::from_str(alloc, &including[..folder_len(including)])?;
    name.push_str(path)?;
    Ok(name)
}
