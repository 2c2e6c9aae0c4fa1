//! A typed project of one module with a few unions, in which a pattern stands.
use elm_base::{
    At, Decls, Meaning, Name, NoMemory, Pattern, Project, Resolved, Thing, TypeTree, Typed, UnionOf,
};
use sqlite_items::Items;
use std::alloc::Global;

/// Each union with a constructor and the number of its arguments.
const CONSTRUCTORS: [(&str, &str, usize); 12] = [
    ("Bool", "True", 0),
    ("Bool", "False", 0),
    ("Maybe", "Just", 1),
    ("Maybe", "Nothing", 0),
    ("Color", "Red", 0),
    ("Color", "Green", 0),
    ("Color", "Blue", 0),
    ("Pair", "Both", 2),
    ("Tree", "Leaf", 0),
    ("Tree", "Node", 3),
    ("Either", "Left", 1),
    ("Either", "Right", 1),
];

const UNIONS: [&str; 6] = ["Bool", "Maybe", "Color", "Pair", "Tree", "Either"];

pub fn module_name(alloc: Global) -> Result<Name, NoMemory> {
    Name::of(alloc, b"Main")
}

fn arguments(alloc: Global, takes: usize) -> Result<Items<TypeTree>, NoMemory> {
    let mut arguments = Items::new(alloc);
    for _ in 0..takes {
        arguments.push(TypeTree::Unit {
            at: At { line: 0, column: 0 },
        })?;
    }
    Ok(arguments)
}

fn push_constructors(
    alloc: Global,
    of: &str,
    out: &mut Items<(Name, Items<TypeTree>)>,
) -> Result<(), NoMemory> {
    for (union, constructor, takes) in CONSTRUCTORS {
        if union == of {
            let name = Name::of(alloc, constructor.as_bytes())?;
            out.push((name, arguments(alloc, takes)?))?;
        }
    }
    Ok(())
}

fn push_union(alloc: Global, of: &str, out: &mut Items<UnionOf>) -> Result<(), NoMemory> {
    let mut constructors = Items::new(alloc);
    push_constructors(alloc, of, &mut constructors)?;
    out.push(UnionOf {
        module: module_name(alloc)?,
        name: Name::of(alloc, of.as_bytes())?,
        parameters: Items::new(alloc),
        constructors,
    })?;
    Ok(())
}

fn push_meaning(
    alloc: Global,
    at: At,
    name: &Name,
    out: &mut Items<Meaning>,
) -> Result<(), NoMemory> {
    let thing = Thing::Constructor {
        module: module_name(alloc)?,
        name: name.copy(alloc)?,
    };
    out.push(Meaning {
        module: module_name(alloc)?,
        at,
        thing,
    })?;
    Ok(())
}

#[cycle(meanings)]
fn push_all_meanings(
    alloc: Global,
    patterns: &[Pattern],
    out: &mut Items<Meaning>,
) -> Result<(), NoMemory> {
    for pattern in patterns {
        push_meanings(alloc, pattern, out)?;
    }
    Ok(())
}

/// What the constructors of the pattern stand for.
#[cycle(meanings)]
pub fn push_meanings(
    alloc: Global,
    pattern: &Pattern,
    out: &mut Items<Meaning>,
) -> Result<(), NoMemory> {
    match pattern {
        Pattern::Made {
            at,
            constructor,
            parts,
        } => {
            push_meaning(alloc, *at, constructor, out)?;
            push_all_meanings(alloc, parts.as_slice(), out)
        }
        Pattern::Cons { head, tail, .. } => {
            push_meanings(alloc, head.get(), out)?;
            push_meanings(alloc, tail.get(), out)
        }
        Pattern::List { parts, .. } | Pattern::Tuple { parts, .. } => {
            push_all_meanings(alloc, parts.as_slice(), out)
        }
        Pattern::Brackets { inner, .. } | Pattern::Named { inner, .. } => {
            push_meanings(alloc, inner.get(), out)
        }
        _ => Ok(()),
    }
}

fn unions(alloc: Global) -> Result<Items<UnionOf>, NoMemory> {
    let mut unions = Items::new(alloc);
    for of in UNIONS {
        push_union(alloc, of, &mut unions)?;
    }
    Ok(unions)
}

/// The project of these modules and names, with the unions.
pub fn typed(alloc: Global, resolved: Resolved) -> Result<Typed, NoMemory> {
    let unions = unions(alloc)?;
    Ok(Typed {
        resolved,
        decls: Decls {
            unions,
            aliases: Items::new(alloc),
            ports: Items::new(alloc),
        },
        types: Items::new(alloc),
    })
}

/// The project without a module and without a meaning so far.
pub fn project(alloc: Global) -> Result<Typed, NoMemory> {
    let modules = Items::new(alloc);
    typed(
        alloc,
        Resolved {
            project: Project { modules },
            groups: Items::new(alloc),
            meanings: Items::new(alloc),
        },
    )
}
