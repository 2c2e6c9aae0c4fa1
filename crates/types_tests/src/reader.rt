//! Types of a scene, read from text: names, arrows, tuples, records with or without a rest, and variables. A variable that
//! begins with `comparable`, `appendable` or `compappend` has the flags of that word. Before a bar stands the rest of a row,
//! which is opaque where its name begins with `rigid`.
use crate::printer::one_less;
use crate::scene::Scene;
use elm_base::{Name, NoMemory, Token, TokenKind};
use layout_lexer::tokens;
use sqlite_items::Items;
use std::alloc::Global;
use type_terms::{Flag, TermId};

// How deep the readers below call each other at most, and how many parts a type of a test has at most.
const DEPTH: u32 = 40;

const PARTS: u32 = 9;

/// A variable that was named: its place among the types, or among the rests of rows, and its term.
#[derive(Drop)]
pub struct Variable {
    pub name: Name,
    pub place: usize,
    pub rest: bool,
    pub term: TermId,
    pub flag: Flag,
}

// What is left of a text.
#[derive(Drop)]
struct Words<'a> {
    left: &'a [Token<'a>],
}

impl<'a> Words<'a> {
    fn sees(&self, place: usize, text: &[u8]) -> bool {
        match self.left.get(place) {
            Some(token) => token.text == text,
            None => false,
        }
    }

    // Whether the next word is this one, which is then taken.
    fn takes(&mut self, text: &[u8]) -> bool {
        let found = self.sees(0, text);
        if found {
            let _ = self.next();
        }
        found
    }

    fn next(&mut self) -> Result<Token<'a>, NoMemory> {
        let [first, rest @ ..] = self.left else {
            return Err(NoMemory);
        };
        self.left = rest;
        Ok(*first)
    }

    // A label and the colon behind it.
    fn label(&mut self) -> Result<&'a [u8], NoMemory> {
        let label = self.next()?;
        if self.takes(b":") {
            Ok(label.text)
        } else {
            Err(NoMemory)
        }
    }

    // Takes a comma, or stands before the end.
    fn passes_comma(&mut self, end: &[u8]) -> Result<(), NoMemory> {
        if self.takes(b",") || self.sees(0, end) {
            Ok(())
        } else {
            Err(NoMemory)
        }
    }

    // Whether a type begins that is an argument as it stands.
    fn begins_argument(&self) -> bool {
        match self.left.first() {
            Some(token) => {
                let name = token.kind == TokenKind::Upper || token.kind == TokenKind::Lower;
                name || token.text == b"(".as_slice() || token.text == b"{".as_slice()
            }
            None => false,
        }
    }
}

/// Reads types, one after the other. What has one name is one variable. What is no type finds no memory.
#[derive(Drop)]
pub struct Reader {
    alloc: Global,
    pub scene: Scene,
    pub variables: Items<Variable>,
}

impl Reader {
    pub fn new(alloc: Global) -> Result<Reader, NoMemory> {
        Ok(Reader {
            alloc,
            scene: Scene::new(alloc)?,
            variables: Items::new(alloc),
        })
    }

    /// The place of the type that the text stands for, if it stands for one.
    pub fn read(&mut self, text: &str) -> Result<usize, NoMemory> {
        let found = tokens(self.alloc, text.as_bytes()).or(Err(NoMemory))?;
        self.read_all(found.as_slice())
    }

    fn read_all(&mut self, tokens: &[Token<'_>]) -> Result<usize, NoMemory> {
        let mut words = Words { left: tokens };
        let made = self.arrow(&mut words, DEPTH)?;
        if words.left.is_empty() {
            Ok(made)
        } else {
            Err(NoMemory)
        }
    }

    #[cycle(reads)]
    fn arrow(&mut self, words: &mut Words<'_>, depth: u32) -> Result<usize, NoMemory> {
        let less = one_less(depth)?;
        let from = self.call(words, less)?;
        if !words.takes(b"->") {
            return Ok(from);
        }
        let to = self.arrow(words, less)?;
        self.scene.arrow(from, to)
    }

    // A name with its arguments, or one type.
    #[cycle(reads)]
    fn call(&mut self, words: &mut Words<'_>, depth: u32) -> Result<usize, NoMemory> {
        let less = one_less(depth)?;
        let token = words.next()?;
        if token.kind != TokenKind::Upper {
            return self.part(words, token, less);
        }
        let mut arguments = Items::new(self.alloc);
        self.put_arguments(words, less, &mut arguments)?;
        self.named(token.text, arguments.as_slice())
    }

    #[cycle(reads)]
    fn put_arguments(
        &mut self,
        words: &mut Words<'_>,
        depth: u32,
        found: &mut Items<usize>,
    ) -> Result<(), NoMemory> {
        let less = one_less(depth)?;
        for _ in 0..PARTS {
            if words.begins_argument() {
                let first = words.next()?;
                let argument = self.part(words, first, less)?;
                found.push(argument)?;
            }
        }
        Ok(())
    }

    // A type that begins with this word.
    #[cycle(reads)]
    fn part(
        &mut self,
        words: &mut Words<'_>,
        first: Token<'_>,
        depth: u32,
    ) -> Result<usize, NoMemory> {
        let less = one_less(depth)?;
        match first.kind {
            TokenKind::Upper => self.named(first.text, &[]),
            TokenKind::Lower => self.variable(first.text),
            _ => match first.text {
                b"(" => self.brackets(words, less),
                b"{" => self.braces(words, less),
                _ => Err(NoMemory),
            },
        }
    }

    #[cycle(reads)]
    fn brackets(&mut self, words: &mut Words<'_>, depth: u32) -> Result<usize, NoMemory> {
        let less = one_less(depth)?;
        let mut parts = Items::new(self.alloc);
        self.put_parts(words, less, &mut parts)?;
        if parts.len() == 1 {
            parts.pop().ok_or(NoMemory)
        } else {
            self.scene.tuple(parts.as_slice())
        }
    }

    // The parts up to a bracket, which is taken.
    #[cycle(reads)]
    fn put_parts(
        &mut self,
        words: &mut Words<'_>,
        depth: u32,
        found: &mut Items<usize>,
    ) -> Result<(), NoMemory> {
        let less = one_less(depth)?;
        for _ in 0..PARTS {
            if words.takes(b")") {
                return Ok(());
            }
            let part = self.arrow(words, less)?;
            found.push(part)?;
            words.passes_comma(b")")?;
        }
        Err(NoMemory)
    }

    #[cycle(reads)]
    fn braces(&mut self, words: &mut Words<'_>, depth: u32) -> Result<usize, NoMemory> {
        let less = one_less(depth)?;
        let rest = self.before_bar(words)?;
        let mut fields = Items::new(self.alloc);
        self.put_fields(words, less, &mut fields)?;
        self.scene.record(fields.as_slice(), rest)
    }

    // The rest that stands before a bar, if there is a bar.
    fn before_bar(&mut self, words: &mut Words<'_>) -> Result<Option<usize>, NoMemory> {
        if !words.sees(1, b"|") {
            return Ok(None);
        }
        let name = words.next()?;
        words.next()?;
        let rest = self.rest(name.text)?;
        Ok(Some(rest))
    }

    // The fields up to a brace, which is taken.
    #[cycle(reads)]
    fn put_fields(
        &mut self,
        words: &mut Words<'_>,
        depth: u32,
        found: &mut Items<(Name, usize)>,
    ) -> Result<(), NoMemory> {
        let less = one_less(depth)?;
        for _ in 0..PARTS {
            if words.takes(b"}") {
                return Ok(());
            }
            let label = words.label()?;
            let place = self.arrow(words, less)?;
            self.put_field(label, place, found)?;
            words.passes_comma(b"}")?;
        }
        Err(NoMemory)
    }

    fn put_field(
        &self,
        label: &[u8],
        place: usize,
        found: &mut Items<(Name, usize)>,
    ) -> Result<(), NoMemory> {
        let label = Name::of(self.alloc, label)?;
        found.push((label, place))?;
        Ok(())
    }

    // A type of the library.
    fn named(&mut self, name: &[u8], arguments: &[usize]) -> Result<usize, NoMemory> {
        let whole = self.whole_name(name)?;
        self.scene.named(whole.as_slice(), arguments)
    }

    // The name behind that of its module.
    fn whole_name(&self, name: &[u8]) -> Result<Vec<u8>, NoMemory> {
        let front = match name {
            b"Signal" => "Signal.",
            _ => "Basics.",
        };
        let mut whole = front.as_bytes().to_vec(self.alloc)?;
        whole.extend_from_slice(name)?;
        Ok(whole)
    }

    // The place of a variable that was named before.
    fn found(&self, name: &[u8], rest: bool) -> Option<usize> {
        for variable in self.variables.as_slice() {
            if variable.rest == rest && variable.name.is(name) {
                return Some(variable.place);
            }
        }
        None
    }

    fn variable(&mut self, name: &[u8]) -> Result<usize, NoMemory> {
        if let Some(place) = self.found(name, false) {
            return Ok(place);
        }
        let flag = flag_of(name);
        let place = self.scene.variable(flag)?;
        let term = self.scene.term(place)?;
        let name = Name::of(self.alloc, name)?;
        self.keep(Variable {
            name,
            place,
            rest: false,
            term,
            flag,
        })
    }

    fn rest(&mut self, name: &[u8]) -> Result<usize, NoMemory> {
        if let Some(place) = self.found(name, true) {
            return Ok(place);
        }
        let (place, term) = self.scene.rest(rigid_number(name))?;
        let name = Name::of(self.alloc, name)?;
        self.keep(Variable {
            name,
            place,
            rest: true,
            term,
            flag: Flag::Plain,
        })
    }

    // A variable more; its place.
    fn keep(&mut self, variable: Variable) -> Result<usize, NoMemory> {
        let place = variable.place;
        self.variables.push(variable)?;
        Ok(place)
    }
}

// The number of a rest that is opaque.
fn rigid_number(name: &[u8]) -> Option<u32> {
    if name.starts_with(b"rigid") {
        u32::try_from(name.len()).ok()
    } else {
        None
    }
}

fn flag_of(name: &[u8]) -> Flag {
    if name.starts_with(b"comparable") {
        Flag::Comparable
    } else if name.starts_with(b"appendable") {
        Flag::Appendable
    } else if name.starts_with(b"compappend") {
        Flag::Both
    } else {
        Flag::Plain
    }
}
