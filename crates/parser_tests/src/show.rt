//! Trees as short texts.
use elm_base::{At, Declaration, Expr, Operator, Pattern, Set, Spot, TypeTree};
use std::alloc::{AllocError, Global};
use std::fmt::Write;
use std::str;

/// What has been written of a tree.
#[derive(Drop)]
pub struct Printed {
    text: String,
    /// Whether the column of a type, a pattern or a label stands behind it.
    places: bool,
}

impl Printed {
    pub fn new(alloc: Global, places: bool) -> Printed {
        Printed {
            text: String::new(alloc),
            places,
        }
    }

    pub fn into_text(self) -> String {
        let Printed { text, .. } = self;
        text
    }

    pub fn put(&mut self, text: &str) -> Result<(), AllocError> {
        self.text.push_str(text)
    }

    fn name(&mut self, name: &[u8]) -> Result<(), AllocError> {
        self.put(str::from_utf8(name).unwrap_or("?"))
    }

    fn place(&mut self, at: At) -> Result<(), AllocError> {
        if self.places {
            let column = at.column;
            write!(self.text, "@{column}")?;
        }
        Ok(())
    }

    fn spot(&mut self, spot: &Spot) -> Result<(), AllocError> {
        self.name(spot.name.bytes())?;
        self.place(spot.at)
    }
}

/// Writes the types, and what stands behind them.
#[cycle(put_type)]
fn put_types(out: &mut Printed, trees: &[TypeTree], back: &str) -> Result<(), AllocError> {
    for tree in trees {
        out.put(" ")?;
        put_type(out, tree)?;
    }
    out.put(back)
}

#[cycle(put_type)]
fn put_typed(out: &mut Printed, fields: &[(Spot, TypeTree)]) -> Result<(), AllocError> {
    for (label, tree) in fields {
        out.put(" ")?;
        out.spot(label)?;
        out.put(":")?;
        put_type(out, tree)?;
    }
    out.put("}")
}

#[cycle(put_type)]
fn put_arrow(out: &mut Printed, tree: &TypeTree) -> Result<(), AllocError> {
    if let TypeTree::Arrow { from, to, .. } = tree {
        out.put("<")?;
        put_type(out, from.get())?;
        out.put(" -> ")?;
        put_type(out, to.get())?;
        out.put(">")?;
    }
    Ok(())
}

fn put_before(out: &mut Printed, before: &Option<Spot>) -> Result<(), AllocError> {
    out.put("{")?;
    if let Some(variable) = before {
        out.put(" ")?;
        out.spot(variable)?;
        out.put(" |")?;
    }
    Ok(())
}

/// Writes the type, and its place behind it.
#[cycle(put_type)]
pub fn put_type(out: &mut Printed, tree: &TypeTree) -> Result<(), AllocError> {
    let at = match tree {
        TypeTree::Variable { at, name } => {
            out.name(name.bytes())?;
            at
        }
        TypeTree::Unit { at } => {
            out.put("()")?;
            at
        }
        TypeTree::Named {
            at,
            name,
            arguments,
        } => {
            out.put("<")?;
            out.name(name.bytes())?;
            put_types(out, arguments.as_slice(), ">")?;
            at
        }
        TypeTree::Tuple { at, parts } => {
            out.put("(,")?;
            put_types(out, parts.as_slice(), ")")?;
            at
        }
        TypeTree::Brackets { at, inner } => {
            out.put("(")?;
            put_type(out, inner.get())?;
            out.put(")")?;
            at
        }
        TypeTree::Arrow { at, .. } => {
            put_arrow(out, tree)?;
            at
        }
        TypeTree::Fields { at, before, fields } => {
            put_before(out, before)?;
            put_typed(out, fields.as_slice())?;
            at
        }
    };
    out.place(*at)
}

#[cycle(put_pattern)]
fn put_patterns(out: &mut Printed, trees: &[Pattern]) -> Result<(), AllocError> {
    for tree in trees {
        out.put(" ")?;
        put_pattern(out, tree)?;
    }
    Ok(())
}

/// Writes a pattern without parts, and gives its place.
fn put_plain(out: &mut Printed, tree: &Pattern) -> Result<Option<At>, AllocError> {
    let at = match tree {
        Pattern::Anything { at } => {
            out.put("_")?;
            at
        }
        Pattern::Variable { at, name } => {
            out.name(name.bytes())?;
            at
        }
        Pattern::Int { at, value } => {
            write!(out.text, "{value}")?;
            at
        }
        Pattern::Char { at, value } => {
            write!(out.text, "'{value}'")?;
            at
        }
        Pattern::Text { at, value } => {
            out.put("\"")?;
            out.name(value.bytes())?;
            out.put("\"")?;
            at
        }
        Pattern::Unit { at } => {
            out.put("()")?;
            at
        }
        Pattern::Fields { at, labels } => {
            out.put("{")?;
            for label in labels.as_slice() {
                out.put(" ")?;
                out.spot(label)?;
            }
            out.put("}")?;
            at
        }
        _ => return Ok(None),
    };
    Ok(Some(*at))
}

/// Writes the patterns between these two.
#[cycle(put_pattern)]
fn put_listed(
    out: &mut Printed,
    front: &str,
    parts: &[Pattern],
    back: &str,
) -> Result<(), AllocError> {
    out.put(front)?;
    put_patterns(out, parts)?;
    out.put(back)
}

#[cycle(put_pattern)]
fn put_cons(out: &mut Printed, tree: &Pattern) -> Result<(), AllocError> {
    if let Pattern::Cons { head, tail, .. } = tree {
        out.put("<")?;
        put_pattern(out, head.get())?;
        out.put(" :: ")?;
        put_pattern(out, tail.get())?;
        out.put(">")?;
    }
    Ok(())
}

/// Writes the pattern, and its place behind it.
#[cycle(put_pattern)]
pub fn put_pattern(out: &mut Printed, tree: &Pattern) -> Result<(), AllocError> {
    if let Some(at) = put_plain(out, tree)? {
        return out.place(at);
    }
    match tree {
        Pattern::Made {
            at,
            constructor,
            parts,
        } => {
            out.put("<")?;
            out.name(constructor.bytes())?;
            put_listed(out, "", parts.as_slice(), ">")?;
            out.place(*at)
        }
        Pattern::Cons { at, .. } => {
            put_cons(out, tree)?;
            out.place(*at)
        }
        Pattern::List { at, parts } => {
            put_listed(out, "[", parts.as_slice(), "]")?;
            out.place(*at)
        }
        Pattern::Tuple { at, parts } => {
            put_listed(out, "(,", parts.as_slice(), ")")?;
            out.place(*at)
        }
        Pattern::Brackets { at, inner } => {
            out.put("(")?;
            put_pattern(out, inner.get())?;
            out.put(")")?;
            out.place(*at)
        }
        Pattern::Named { at, inner, name } => {
            out.put("<")?;
            put_pattern(out, inner.get())?;
            out.put(" as ")?;
            out.spot(name)?;
            out.put(">")?;
            out.place(*at)
        }
        _ => Ok(()),
    }
}

#[cycle(put_expr)]
fn put_exprs(out: &mut Printed, trees: &[Expr]) -> Result<(), AllocError> {
    for tree in trees {
        out.put(" ")?;
        put_expr(out, tree)?;
    }
    out.put(")")
}

#[cycle(put_expr)]
fn put_sets(out: &mut Printed, fields: &[Set]) -> Result<(), AllocError> {
    for field in fields {
        out.put(" ")?;
        out.name(field.label.bytes())?;
        out.put("=")?;
        put_expr(out, &field.value)?;
    }
    out.put(")")
}

/// The branches of a multi-way `if`.
#[cycle(put_expr)]
fn put_guards(out: &mut Printed, tree: &Expr) -> Result<(), AllocError> {
    out.put("(if")?;
    if let Expr::Guards { branches, .. } = tree {
        for (condition, value) in branches.as_slice() {
            out.put(" | ")?;
            put_expr(out, condition)?;
            out.put(" -> ")?;
            put_expr(out, value)?;
        }
    }
    out.put(")")
}

#[cycle(put_expr)]
fn put_case(out: &mut Printed, tree: &Expr) -> Result<(), AllocError> {
    out.put("(case ")?;
    if let Expr::Case {
        scrutinee,
        branches,
        ..
    } = tree
    {
        put_expr(out, scrutinee.get())?;
        for (pattern, value) in branches.as_slice() {
            out.put(" | ")?;
            put_pattern(out, pattern)?;
            out.put(" -> ")?;
            put_expr(out, value)?;
        }
    }
    out.put(")")
}

#[cycle(put_expr)]
fn put_declaration(out: &mut Printed, tree: &Declaration) -> Result<(), AllocError> {
    match tree {
        Declaration::Annotation { name, .. } => {
            out.name(name.bytes())?;
            out.put(" : ..")
        }
        Declaration::Definition {
            name,
            patterns,
            body,
            ..
        } => {
            out.name(name.bytes())?;
            put_patterns(out, patterns.as_slice())?;
            out.put(" = ")?;
            put_expr(out, body)
        }
        Declaration::PatternDefinition { pattern, body, .. } => {
            put_pattern(out, pattern)?;
            out.put(" = ")?;
            put_expr(out, body)
        }
        _ => out.put("?"),
    }
}

#[cycle(put_expr)]
fn put_declarations(out: &mut Printed, trees: &[Declaration]) -> Result<(), AllocError> {
    for tree in trees {
        out.put(" ")?;
        put_declaration(out, tree)?;
        out.put(";")?;
    }
    out.put(" in ")
}

fn put_operators(out: &mut Printed, operators: &[Operator]) -> Result<(), AllocError> {
    out.put("(chain")?;
    for operator in operators {
        out.put(" ")?;
        out.name(operator.name.bytes())?;
    }
    out.put(" of")
}

#[cycle(put_expr)]
fn put_parts(out: &mut Printed, word: &str, parts: &[Expr]) -> Result<(), AllocError> {
    out.put(word)?;
    put_exprs(out, parts)
}

/// A word and a tree in brackets.
#[cycle(put_expr)]
fn put_one(out: &mut Printed, word: &str, tree: &Expr) -> Result<(), AllocError> {
    out.put(word)?;
    put_expr(out, tree)?;
    out.put(")")
}

/// The end of a range behind its beginning.
#[cycle(put_expr)]
fn put_range(out: &mut Printed, tree: &Expr) -> Result<(), AllocError> {
    if let Expr::Range { low, high, .. } = tree {
        out.put("(range ")?;
        put_expr(out, low.get())?;
        put_one(out, " ", high.get())?;
    }
    Ok(())
}

/// New fields, or new values of fields, over a record.
#[cycle(put_expr)]
fn put_over(out: &mut Printed, tree: &Expr) -> Result<(), AllocError> {
    match tree {
        Expr::Extend { from, fields, .. } => {
            out.put("(extend ")?;
            put_expr(out, from.get())?;
            put_sets(out, fields.as_slice())
        }
        Expr::Update { from, fields, .. } => {
            out.put("(update ")?;
            put_expr(out, from.get())?;
            put_sets(out, fields.as_slice())
        }
        _ => Ok(()),
    }
}

#[cycle(put_expr)]
fn put_lambda(out: &mut Printed, tree: &Expr) -> Result<(), AllocError> {
    if let Expr::Lambda { patterns, body, .. } = tree {
        out.put("(\\")?;
        put_patterns(out, patterns.as_slice())?;
        put_one(out, " -> ", body.get())?;
    }
    Ok(())
}

#[cycle(put_expr)]
fn put_if(out: &mut Printed, tree: &Expr) -> Result<(), AllocError> {
    if let Expr::If {
        condition,
        yes,
        no,
        ..
    } = tree
    {
        out.put("(if ")?;
        put_expr(out, condition.get())?;
        out.put(" ")?;
        put_expr(out, yes.get())?;
        put_one(out, " ", no.get())?;
    }
    Ok(())
}

#[cycle(put_expr)]
fn put_let(out: &mut Printed, tree: &Expr) -> Result<(), AllocError> {
    if let Expr::Let {
        definitions,
        body,
        ..
    } = tree
    {
        out.put("(let")?;
        put_declarations(out, definitions.as_slice())?;
        put_one(out, "", body.get())?;
    }
    Ok(())
}

#[cycle(put_expr)]
fn put_call(out: &mut Printed, tree: &Expr) -> Result<(), AllocError> {
    if let Expr::Call {
        function,
        arguments,
        ..
    } = tree
    {
        out.put("(call ")?;
        put_expr(out, function.get())?;
        put_exprs(out, arguments.as_slice())?;
    }
    Ok(())
}

#[cycle(put_expr)]
fn put_access(out: &mut Printed, from: &Expr, label: &[u8]) -> Result<(), AllocError> {
    put_expr(out, from)?;
    out.put("!")?;
    out.name(label)
}

/// An atom without parts.
fn put_leaf(out: &mut Printed, tree: &Expr) -> Result<bool, AllocError> {
    match tree {
        Expr::Int { value, .. } => write!(out.text, "{value}")?,
        Expr::Char { value, .. } => write!(out.text, "'{value}'")?,
        Expr::Text { value, .. } => {
            out.put("\"")?;
            out.name(value.bytes())?;
            out.put("\"")?;
        }
        Expr::Variable { name, .. } => out.name(name.bytes())?,
        Expr::Constructor { name, .. } => out.name(name.bytes())?,
        Expr::FieldFunction { label, .. } => {
            out.put(".")?;
            out.name(label.bytes())?;
        }
        Expr::OperatorName { name, .. } => {
            out.put("op ")?;
            out.name(name.bytes())?;
        }
        Expr::TupleMaker { parts, .. } => write!(out.text, "tuple{parts}")?,
        Expr::Unit { .. } => out.put("()")?,
        _ => return Ok(false),
    }
    Ok(true)
}

/// Writes the tree: a word for each form, with its parts behind it.
#[cycle(put_expr)]
pub fn put_expr(out: &mut Printed, tree: &Expr) -> Result<(), AllocError> {
    if put_leaf(out, tree)? {
        return Ok(());
    }
    match tree {
        Expr::Chain {
            operands,
            operators,
            ..
        } => {
            put_operators(out, operators.as_slice())?;
            put_exprs(out, operands.as_slice())
        }
        Expr::Negate { inner, .. } => put_one(out, "(neg ", inner.get()),
        Expr::Call { .. } => put_call(out, tree),
        Expr::Access { from, label, .. } => put_access(out, from.get(), label.bytes()),
        Expr::Brackets { inner, .. } => put_one(out, "(in ", inner.get()),
        Expr::Tuple { parts, .. } => put_parts(out, "(tuple", parts.as_slice()),
        Expr::List { parts, .. } => put_parts(out, "(list", parts.as_slice()),
        Expr::Range { .. } => put_range(out, tree),
        Expr::Fields { fields, .. } => {
            out.put("(fields")?;
            put_sets(out, fields.as_slice())
        }
        Expr::Extend { .. } | Expr::Update { .. } => put_over(out, tree),
        Expr::Remove {
            from,
            label,
            fields,
            ..
        } => {
            out.put("(without ")?;
            out.name(label.bytes())?;
            out.put(" ")?;
            put_expr(out, from.get())?;
            put_sets(out, fields.as_slice())
        }
        Expr::Lambda { .. } => put_lambda(out, tree),
        Expr::If { .. } => put_if(out, tree),
        Expr::Guards { .. } => put_guards(out, tree),
        Expr::Let { .. } => put_let(out, tree),
        Expr::Case { .. } => put_case(out, tree),
        _ => out.put("?"),
    }
}
