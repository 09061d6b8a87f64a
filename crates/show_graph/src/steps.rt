//! The steps of a build.

use crate::nodes::{Node, Part};
use crate::words::{Reader, put_name, put_word};
use write_text::Text;

/// What the steps of a build are called with.
#[derive(Clone, Copy)]
pub struct Steps<'a> {
    /// The folder into which the modules are written.
    pub out: &'a str,
    /// The folder of the program, as it stands in front of the names of its files.
    pub folder: &'a str,
    /// The folders in which modules are looked for behind it.
    pub libraries: &'a [String],
    /// How many pages the memory has.
    pub pages: u32,
}

impl Steps<'_> {
    /// Whether a file stands in the folder of the program.
    fn is_beside(&self, file: &str) -> bool {
        match file.strip_prefix(self.folder) {
            None => false,
            Some(rest) => !rest.contains('/'),
        }
    }

    /// Puts the name of a file of a module in the folder of the modules.
    pub fn put_made(&self, page: &mut Text, reader: Reader, module: &str, ending: &str) {
        for part in [self.out, "/", module, ending] {
            put_name(page, reader, part);
        }
    }

    /// Puts the words behind `m2 compile` that all modules share.
    pub fn put_shared(&self, page: &mut Text) {
        page.put(" compile --out");
        put_word(page, &[self.out]);
        for library in self.libraries {
            page.put(" --lib");
            put_word(page, &[library.as_str()]);
        }
    }

    /// Puts the words of one module: the file that says what it depends on, and the folder of the program if its own is another.
    pub fn put_own(&self, page: &mut Text, node: &Node<'_>, body: &Part<'_>) {
        page.put(" --deps");
        put_word(page, &[self.out, "/", node.name.as_str(), ".d"]);
        if !self.is_beside(body.file) {
            page.put(" --from");
            put_word(page, &[self.named_folder()]);
        }
    }

    /// The folder of the program as a word that is not empty.
    fn named_folder(&self) -> &str {
        if self.folder.is_empty() {
            "."
        } else {
            self.folder
        }
    }

    /// Puts the words behind `m2` that link a program.
    pub fn put_link(&self, page: &mut Text, program: &str) {
        page.put(" link --out");
        put_word(page, &[self.out]);
        page.put(" --memory ");
        page.put_number(u64::from(self.pages));
        page.put_all(&[" ", program]);
    }
}
