//! Skeletons as short texts: `_` for a hole, `*` for another literal, a constructor with its arguments in brackets.
use case_check::Skeleton;
use elm_base::Name;
use std::alloc::AllocError;
use std::str;

fn put_name(text: &mut String, name: &Name) -> Result<(), AllocError> {
    text.push_str(str::from_utf8(name.bytes()).unwrap_or("?"))
}

#[cycle(show)]
fn put_parts(text: &mut String, parts: &[Skeleton]) -> Result<(), AllocError> {
    for part in parts {
        text.push_str(" ")?;
        put_skeleton(text, part)?;
    }
    Ok(())
}

#[cycle(show)]
pub fn put_skeleton(text: &mut String, skeleton: &Skeleton) -> Result<(), AllocError> {
    match skeleton {
        Skeleton::Hole => text.push_str("_"),
        Skeleton::OtherLiteral => text.push_str("*"),
        Skeleton::Made { constructor, parts } => {
            if parts.is_empty() {
                return put_name(text, constructor);
            }
            text.push_str("(")?;
            put_name(text, constructor)?;
            put_parts(text, parts.as_slice())?;
            text.push_str(")")
        }
    }
}
