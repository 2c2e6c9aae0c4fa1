//! A project in a folder of the system.
use crate::outcome::outcome;
use crate::same;
use reactor_outside::FolderShelf;
use std::fs;
use std::test::Fail;

// The folders of the project, the outer one first.
const FOLDERS: [&str; 2] = ["load_tests.project", "load_tests.project/A"];

const FILES: [(&str, &str); 4] = [
    (
        "load_tests.project/Main.elm",
        "import C\nimport A.B\nimport List\n\nmain = x\n",
    ),
    ("load_tests.project/A.elm", "module A where\n"),
    ("load_tests.project/A/B.elm", "module A.B where\nimport A\n"),
    ("load_tests.project/C.elm", "module C where\nimport A.B\n"),
];

#[test]
fn a_project_is_read_from_a_folder(rt: HostRuntime) -> Result<(), Fail> {
    let alloc = rt.alloc();
    for folder in FOLDERS {
        fs::create_dir(&rt, folder)?;
    }
    for (name, text) in FILES {
        fs::write(&rt, name, text)?;
    }
    let mut shelf = FolderShelf::new(&rt);
    let found = outcome(alloc, &mut shelf, "load_tests.project")?;
    same(&rt, found.as_str(), "A;A.B;C;Main;", "four modules");
    // Without its file, a module is missing where it is first imported.
    fs::remove_file(&rt, "load_tests.project/A.elm")?;
    let missing = outcome(alloc, &mut shelf, "load_tests.project")?;
    same(
        &rt,
        missing.as_str(),
        "A.B 2 MissingModule A",
        "three modules",
    );
    fs::remove_dir_all(&rt, "load_tests.project")?;
    Ok(())
}
