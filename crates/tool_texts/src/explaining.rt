//! `m2 explain`: what the numbers mean.

use command_words::{COMMAND_LINE, FAILED};
use explain_rules::{list, page};
use tool_output::say_output_fault;
use tool_words::PROGRAM;

/// The status if a page was printed.
const EXPLAINED: u8 = 0;

/// The page of a topic, or the list of all topics if this is empty.
fn words_on(topic: &str) -> Option<&'static str> {
    if topic.is_empty() {
        Some(list())
    } else {
        page(topic)
    }
}

/// Prints the page of a topic, or the list of all topics if this is empty. The status.
pub fn explain<R: Print + Eprint>(rt: &R, topic: &str) -> u8 {
    let Some(words) = words_on(topic) else {
        let _ = eprintln!(rt; "{PROGRAM}: there is no page on {topic}; `m2 explain` lists all");
        return COMMAND_LINE;
    };
    match print!(rt; "{words}") {
        Ok(()) => EXPLAINED,
        Err(error) => {
            say_output_fault(rt, &error);
            FAILED
        }
    }
}
