//! Of which files others were made.

use crate::words::{Reader, put_name};
use std::alloc::{AllocError, Global};
use write_text::Text;

/// What stands between two names of a list.
const BETWEEN: &str = " \\\n ";

/// A rule of make, which ninja reads too: the files that were made, and behind a colon each file that was read for them, in
/// order. In front of blanks, `#` and `:` of a name stands a backslash, and `$` is doubled. The only error is that memory ran out.
pub fn depends(alloc: Global, made: &[String], read: &[&str]) -> Result<String, AllocError> {
    let mut page = Text::new(alloc);
    for (number, name) in made.iter().enumerate() {
        page.put(if number == 0 { "" } else { BETWEEN });
        put_name(&mut page, Reader::Make, name.as_str());
    }
    page.put(":");
    for name in read {
        page.put(BETWEEN);
        put_name(&mut page, Reader::Make, name);
    }
    page.put("\n");
    page.finish()
}
