//! What is said of an image that is not wellformed.

ghost use Rattle.std.specs.Prelude.{◌≡◌, ◌++◌, IfOk, OnOk};
ghost use Rattle.std.specs.List.{flat_map};
ghost use Rattle.yr_outcome.specs.declared.status.Status.TheVariants as status;
ghost use Rattle.yr_outcome.specs.Steps.{IsRefusalOf};
ghost use Rattle.yr_outcome.specs.Texts.{image_name, image_numbers, image_text, spaced};

use itoa::Buffer;
use std::alloc::{AllocError, Global};
use yr_image::ImageFault;
use yr_outcome::{Answer, Status, join};

// The name of a fault.
fn fault_name(fault: ImageFault) -> &'static str
    ensures { result.now ≡ image_name fault }
{
    match fault {
        ImageFault::TooShort => "TooShort",
        ImageFault::Magic => "Magic",
        ImageFault::Version => "Version",
        ImageFault::Length => "Length",
        ImageFault::Section(_) => "Section",
        ImageFault::Index(_, _) => "Index",
        ImageFault::Name(_, _) => "Name",
        ImageFault::Code(_, _) => "Code",
        ImageFault::ProgramBad(_) => "ProgramBad",
        ImageFault::Node(_) => "Node",
    }
}

// A blank and a number more.
fn add_number(text: &mut Vec<u8>, n: u32) -> Result<(), AllocError>
    ensures { OnOk result (text.new.items ≡ text.old.items ++ spaced n) }
{
    let mut buffer = Buffer::new();
    text.push(b' ')?;
    text.extend_from_slice(buffer.format(n).as_bytes())
}

// The numbers of a fault more.
fn add_numbers(text: &mut Vec<u8>, fault: ImageFault) -> Result<(), AllocError>
    ensures { OnOk result (text.new.items ≡ text.old.items ++ flat_map spaced (image_numbers fault)) }
{
    match fault {
        ImageFault::TooShort | ImageFault::Magic | ImageFault::Version | ImageFault::Length => {
            Ok(())
        }
        ImageFault::Section(n) | ImageFault::ProgramBad(n) | ImageFault::Node(n) => {
            add_number(text, n)
        }
        ImageFault::Index(m, n) | ImageFault::Name(m, n) | ImageFault::Code(m, n) => {
            add_number(text, m)?;
            add_number(text, n)
        }
    }
}

fn fault_text(alloc: Global, name: &str, fault: ImageFault) -> Result<Vec<u8>, AllocError>
    ensures { IfOk result (λ text. text.items ≡ image_text name.now fault) }
{
    let mut text = join(alloc, &[name.as_bytes(), b": "])?;
    text.extend_from_slice(fault_name(fault).as_bytes())?;
    add_numbers(&mut text, fault)?;
    text.push(b'\n')?;
    Ok(text)
}

/// The refusal of an image with this fault.
pub fn refuse_image<'a>(alloc: Global, name: &str, fault: ImageFault) -> Answer<'a>
    ensures { IsRefusalOf status.Image (image_text name.now fault) result }
{
    match fault_text(alloc, name, fault) {
        Ok(text) => Answer::Refused {
            status: Status::Image,
            text,
        },
        Err(_) => Answer::NoMemory,
    }
}
