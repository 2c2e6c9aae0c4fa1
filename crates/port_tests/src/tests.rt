//! Whole values, printed.
use elm_base::{Name, NoMemory, PortType, PortValue};
use port_values::{default_of, print_value};
use sqlite_items::{Boxed, Items};
use std::alloc::Global;

fn printed(alloc: Global, value: &PortValue) -> Result<Vec<u8>, NoMemory> {
    let mut out = b"before ".to_vec(alloc)?;
    print_value(alloc, value, &mut out)?;
    Ok(out)
}

// `(Int,List Bool)`
fn pair_type(alloc: Global) -> Result<PortType, NoMemory> {
    let list = PortType::List(Boxed::new(alloc, PortType::Bool)?);
    let parts = vec![in alloc; PortType::Int, list]?;
    Ok(PortType::Tuple(Items::from_vec(parts)))
}

// `{ x : (Int,List Bool) }`
fn record_type(alloc: Global) -> Result<PortType, NoMemory> {
    let pair = pair_type(alloc)?;
    let fields = vec![in alloc; (Name::of(alloc, b"x")?, pair)]?;
    Ok(PortType::Fields(Items::from_vec(fields)))
}

fn printed_default(alloc: Global) -> Result<Vec<u8>, NoMemory> {
    let port = record_type(alloc)?;
    printed(alloc, &default_of(alloc, &port)?)
}

#[test]
fn a_record_begins_with_what_its_fields_begin_with(rt: HostRuntime) -> Result<(), NoMemory> {
    let out = printed_default(rt.alloc())?;
    assert_eq!(rt; out.as_slice(), b"before { x = (0,[]) }".as_slice());
    Ok(())
}

// `Just (Just -5)`
fn just_just(alloc: Global) -> Result<PortValue, NoMemory> {
    let inner = PortValue::Just(Boxed::new(alloc, PortValue::Int(-5))?);
    Ok(PortValue::Just(Boxed::new(alloc, inner)?))
}

fn printed_list(alloc: Global) -> Result<Vec<u8>, NoMemory> {
    let text = PortValue::Text(Name::of(alloc, "é\"'".as_bytes())?);
    let parts = vec![in alloc; just_just(alloc)?, text]?;
    printed(alloc, &PortValue::Tuple(Items::from_vec(parts)))
}

#[test]
fn a_just_in_a_just_stands_in_brackets(rt: HostRuntime) -> Result<(), NoMemory> {
    let out = printed_list(rt.alloc())?;
    assert_eq!(rt;
        out.as_slice(),
        "before (Just (Just -5),\"é\\\"'\")".as_bytes()
    );
    Ok(())
}
