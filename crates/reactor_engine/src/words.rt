//! The words of the command line.
ghost use Rattle.std.specs.Prelude.{◌≡◌, ◌++◌, ◌∷◌, [], IfOk, OnOk, OnErr};
ghost use Rattle.std.specs.List.{list_all};
ghost use Rattle.std.specs.Option.{option_copied};
ghost use Rattle.reactor_engine.specs.Words as spec;

use elm_base::NoMemory;
use script_lines::is_file_name;
use std::alloc::Global;
use std::marker::Model;

/// The words behind the program's own name. Contracts see them as the list of their bytes.
#[derive(Drop)]
pub struct Words {
    alloc: Global,
    words: Vec<String>,
}

impl Model for Words {
    ghost use Rattle.std.specs.Prelude.{List, ℕ, map, string_bytes};

    ghost Value = { List (List ℕ) };

    ghost view = { λ words. map string_bytes words.words.items };
}

impl Words {
    /// No words.
    pub fn new(alloc: Global) -> Result<Words, NoMemory>
        ensures { IfOk result (λ words. words ≡ []) }
    {
        Ok(Words {
            alloc,
            words: Vec::new(alloc),
        })
    }

    /// One word more, at the end.
    pub fn add(&mut self, word: &str) -> Result<(), NoMemory>
        ensures ok { OnOk result (self.new ≡ self.old ++ word.now ∷ []) }
        ensures err { OnErr result (self.new ≡ self.old) }
    {
        let word = String::from_str(self.alloc, word)?;
        self.words.push(word)?;
        Ok(())
    }

    /// The project that is to be run, if the words say that one is: `run` and the name of its folder.
    pub fn project(&self) -> Option<&str>
        ensures { option_copied result ≡ spec.project_of self.now }
    {
        if self.words.len() != 2 {
            return None;
        }
        let command = &self.words[0];
        let project = &self.words[1];
        if command.as_bytes() == b"run".as_slice() && is_file_name(project.as_bytes()) {
            Some(project.as_str())
        } else {
            None
        }
    }
}
