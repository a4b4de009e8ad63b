//! Made texts of rules and of imports.

use std::alloc::{AllocError, Global};

// A rule as they often are, of this number.
fn rule(alloc: Global, number: usize) -> Result<String, AllocError> {
    format!(in alloc;
        "rule Sample_{number} : loader {{
    meta:
        author = \"analyst\"
        description = \"Sample {number} of a family\"
        score = {number}
    strings:
        $name{number} = \"loader_{number}.exe\" nocase wide
        $code{number} = {{ 4D 5A ?? 0{number} [2-8] ( E8 | E9 ) 8B 45 ?C }}
        $link{number} = /https?:\\/\\/[a-z0-9.]{{3,40}}\\/sample{number}/i
    condition:
        // Small programs for Windows
        uint16(0) == 0x5a4d and filesize < 2MB and any of them
}}

"
    )
}

/// As many rules as fit into so many bytes, each with other names.
pub fn rules(alloc: Global, size: usize) -> Result<Vec<u8>, AllocError> {
    let mut text = Vec::new(alloc);
    for number in 0..size {
        let next = rule(alloc, number)?;
        if text.len() + next.len() > size {
            break;
        }
        text.extend_from_slice(next.as_bytes())?;
    }
    Ok(text)
}

/// So many imports, a line of 11 bytes each.
pub fn imports(alloc: Global, count: usize) -> Result<Vec<u8>, AllocError> {
    let mut text = Vec::new(alloc);
    for _ in 0..count {
        text.extend_from_slice(b"import \"a\"\n")?;
    }
    Ok(text)
}
