//! What stands in front of the library's modules.
use crate::same;
use elm_base::{Declaration, Module, native};
use elm_library::{LIBRARY, read};
use std::alloc::{AllocError, Global};
use std::fmt::Write;
use std::str;
use std::test::Fail;

/// The lines in front of each module: `n` and the number of a native, `d` for a device, `o` for a type without structure.
const LINES: [(&str, &str); 12] = [
    (
        "Basics",
        "n0 + n1 - n2 * n3 // n4 % n5 rem n6 negate n7 == n8 /= n9 < n10 > n11 <= n12 >= n13 compare n14 ++ n15 toString o Int o Char o String o List a ",
    ),
    ("Maybe", ""),
    ("Result", ""),
    ("List", ""),
    ("Char", "n16 toCode n17 fromCode "),
    (
        "String",
        "n18 length n19 reverse n20 toList n21 fromList n22 toInt ",
    ),
    ("Debug", "n23 watch n24 log n25 crash "),
    (
        "Signal",
        "o Signal a n26 constant n27 map n28 map2 n29 map3 n30 map4 n31 map5 n32 foldp n33 merge n34 filter n35 filterMap n36 dropRepeats n37 sampleOn n38 async ",
    ),
    ("Mouse", "d position d isDown d clicks "),
    ("Keyboard", "d arrows "),
    ("Window", "d dimensions "),
    (
        "Graphics.Element",
        "o Element o Direction o Position n39 text n40 empty n41 spacer n42 flow n43 up n44 down n45 left n46 right n47 topLeft n48 middle n49 bottomRight n50 container n51 widthOf n52 heightOf ",
    ),
];

fn put_name(name: &[u8], out: &mut String) -> Result<(), AllocError> {
    out.push_str(str::from_utf8(name).unwrap_or("?"))?;
    out.push_str(" ")
}

fn put_line(declaration: &Declaration, out: &mut String) -> Result<(), AllocError> {
    match declaration {
        Declaration::Native { name, number, .. } => {
            write!(out, "n{number} ")?;
            put_name(name.bytes(), out)
        }
        Declaration::Device { name, .. } => {
            out.push_str("d ")?;
            put_name(name.bytes(), out)
        }
        Declaration::Opaque {
            name,
            parameters,
            ..
        } => {
            out.push_str("o ")?;
            put_name(name.bytes(), out)?;
            for parameter in parameters.as_slice() {
                put_name(parameter.bytes(), out)?;
            }
            Ok(())
        }
        _ => Ok(()),
    }
}

fn lines_of(alloc: Global, module: &Module) -> Result<String, AllocError> {
    let mut out = String::new(alloc);
    for declaration in module.declarations.as_slice() {
        put_line(declaration, &mut out)?;
    }
    Ok(out)
}

#[test]
fn lines_stand_in_front(rt: HostRuntime) -> Result<(), Fail> {
    let modules = read(rt.alloc(), &LIBRARY)?;
    same(&rt, modules.len(), LINES.len(), "modules");
    for (module, (name, wanted)) in modules.as_slice().iter().zip(LINES.iter()) {
        same(&rt, module.name.bytes(), name.as_bytes(), name);
        let found = lines_of(rt.alloc(), module)?;
        same(&rt, found.as_str(), *wanted, name);
    }
    Ok(())
}

#[test]
fn the_last_native_is_the_last_number(rt: HostRuntime) {
    same(&rt, native::HEIGHT_OF + 1, native::NATIVES, "natives");
}
