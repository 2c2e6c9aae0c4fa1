//! What the library declares.
use crate::projects::put_declared;
use elm_library::{LIBRARY, read};
use std::test::Fail;

const WANTED: &str =
    "Basics.Bool | True | False; Basics.Order | LT | EQ | GT; Basics.Int; Basics.Char; Basics.String; Basics.List a; Maybe.Maybe a | Just[a] | Nothing; Result.Result e a | Ok[a] | Err[e]; Signal.Signal a; Graphics.Element.Element; Graphics.Element.Direction; Graphics.Element.Position; ";

#[test]
fn the_library_declares_its_types(rt: HostRuntime) -> Result<(), Fail> {
    let alloc = rt.alloc();
    let modules = read(alloc, &LIBRARY)?;
    let mut text = String::new(alloc);
    put_declared(alloc, modules, true, &mut text)?;
    assert_eq!(&rt; text.as_str(), WANTED);
    Ok(())
}
