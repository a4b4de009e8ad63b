//! Made rule files.

use std::alloc::{AllocError, Global};

fn push(text: &mut Vec<u8>, piece: &str) -> Result<(), AllocError> {
    text.extend_from_slice(piece.as_bytes())
}

/// So many rules of one text each.
pub fn many(alloc: Global, count: usize) -> Result<Vec<u8>, AllocError> {
    let mut text = Vec::new(alloc);
    for n in 0..count {
        let rule = format!(in alloc; "rule r{n} {{ strings: $a = \"text{n}\" condition: $a }}\n")?;
        push(&mut text, rule.as_str())?;
    }
    Ok(text)
}

/// One rule with so many strings, which its condition has as a set.
pub fn alone(alloc: Global, count: usize) -> Result<Vec<u8>, AllocError> {
    let mut text = Vec::new(alloc);
    push(&mut text, "rule r { strings:\n")?;
    for n in 0..count {
        let string = format!(in alloc; "$s{n} = \"text{n}\"\n")?;
        push(&mut text, string.as_str())?;
    }
    push(&mut text, "condition: all of them }\n")?;
    Ok(text)
}

/// The same where the condition names each string.
pub fn named(alloc: Global, count: usize) -> Result<Vec<u8>, AllocError> {
    let mut text = Vec::new(alloc);
    push(&mut text, "rule r { strings:\n")?;
    for n in 0..count {
        let string = format!(in alloc; "$s{n} = \"text{n}\"\n")?;
        push(&mut text, string.as_str())?;
    }
    push(&mut text, "condition: true")?;
    for n in 0..count {
        let used = format!(in alloc; " or $s{n}")?;
        push(&mut text, used.as_str())?;
    }
    push(&mut text, " }\n")?;
    Ok(text)
}

/// The same where a set of the condition names each string.
pub fn chosen(alloc: Global, count: usize) -> Result<Vec<u8>, AllocError> {
    let mut text = Vec::new(alloc);
    push(&mut text, "rule r { strings:\n")?;
    for n in 0..count {
        let string = format!(in alloc; "$s{n} = \"text{n}\"\n")?;
        push(&mut text, string.as_str())?;
    }
    push(&mut text, "condition: any of ($s0")?;
    for n in 1..count {
        let item = format!(in alloc; ", $s{n}")?;
        push(&mut text, item.as_str())?;
    }
    push(&mut text, ") }\n")?;
    Ok(text)
}

/// The same where a set has so many items, each of which means the last string alone; no other
/// string is used.
pub fn again(alloc: Global, count: usize, items: usize) -> Result<Vec<u8>, AllocError> {
    let mut text = Vec::new(alloc);
    push(&mut text, "rule r { strings:\n")?;
    for n in 0..count {
        let string = format!(in alloc; "$_{n} = \"text{n}\"\n")?;
        push(&mut text, string.as_str())?;
    }
    push(&mut text, "$z = \"z\" condition: any of ($z")?;
    for _item in 0..items {
        push(&mut text, ",$z*")?;
    }
    push(&mut text, ") }\n")?;
    Ok(text)
}

/// One rule with so many strings and as many sets, each of which means one of them.
pub fn apart(alloc: Global, count: usize) -> Result<Vec<u8>, AllocError> {
    let mut text = Vec::new(alloc);
    push(&mut text, "rule r { strings:\n")?;
    for n in 0..count {
        let string = format!(in alloc; "$s{n}_ = \"text{n}\"\n")?;
        push(&mut text, string.as_str())?;
    }
    push(&mut text, "condition: true")?;
    for n in 0..count {
        let set = format!(in alloc; " or 1 of ($s{n}_*)")?;
        push(&mut text, set.as_str())?;
    }
    push(&mut text, " }\n")?;
    Ok(text)
}

/// So many rules with a wildcard for rules each.
pub fn wild(alloc: Global, count: usize) -> Result<Vec<u8>, AllocError> {
    let mut text = Vec::new(alloc);
    push(&mut text, "rule q { condition: true }\n")?;
    for n in 0..count {
        let rule = format!(in alloc; "rule p{n} {{ condition: any of (q*) }}\n")?;
        push(&mut text, rule.as_str())?;
    }
    Ok(text)
}

/// A condition with so many links.
pub fn linked(alloc: Global, count: usize) -> Result<Vec<u8>, AllocError> {
    let mut text = Vec::new(alloc);
    push(&mut text, "rule r { condition: true")?;
    for n in 0..count {
        let link = format!(in alloc; " or filesize == {n}")?;
        push(&mut text, link.as_str())?;
    }
    push(&mut text, " }\n")?;
    Ok(text)
}

/// So many texts under all keys and so many in base64.
pub fn varied(alloc: Global, count: usize) -> Result<Vec<u8>, AllocError> {
    let mut text = Vec::new(alloc);
    push(&mut text, "rule r { strings:\n")?;
    for n in 0..count {
        let keyed = format!(in alloc; "$x{n} = \"text{n}\" xor(1-255)\n")?;
        push(&mut text, keyed.as_str())?;
        let coded = format!(in alloc; "$b{n} = \"text{n}\" base64\n")?;
        push(&mut text, coded.as_str())?;
    }
    push(&mut text, "condition: any of them }\n")?;
    Ok(text)
}
