//! What link has to know of a module.

use m2_tree::MAX_NAME;

/// What a module takes of the memory and of the table.
#[derive(Clone, Copy)]
pub struct Sizes {
    /// How many bytes its variables take.
    pub variables: u32,
    /// How many bytes its texts take.
    pub texts: u32,
    /// How many slots of the table it fills.
    pub slots: u32,
}

/// A definition that a module was compiled with.
#[derive(Drop)]
pub struct Interface {
    /// The name of its module.
    pub name: String,
    /// The checksum of its tokens.
    pub sum: String,
}

/// What link has to know of a module that was compiled alone.
pub struct Part {
    pub name: String,
    /// Whether it is a program module.
    pub is_program: bool,
    pub sizes: Sizes,
    /// The checksum of the text of its body.
    pub text: String,
    /// The checksum of its file M.wasm.
    pub code: String,
    /// The modules that its definition and then its body imports, in order, each once, without Console.
    pub imports: Vec<String>,
    /// The definitions that it was compiled with: its own, and those that it needs directly or through others.
    pub interfaces: Vec<Interface>,
}

// Written by hand, so that proofs above take a drop as one call.
impl Drop for Part {
    fn drop(self) {
        let Part {
            name,
            is_program: _is_program,
            sizes: _sizes,
            text,
            code,
            imports,
            interfaces,
        } = self;
        drop(name);
        drop(text);
        drop(code);
        drop(imports);
        drop(interfaces);
    }
}

/// Whether a text is the name of a module: a letter, and up to 63 letters and digits behind it.
pub fn is_name(text: &str) -> bool {
    let bytes = text.as_bytes();
    let begins_well = match bytes.first() {
        Some(first) => first.is_ascii_alphabetic(),
        None => false,
    };
    begins_well && bytes.len() <= MAX_NAME && bytes.iter().all(|b| b.is_ascii_alphanumeric())
}
