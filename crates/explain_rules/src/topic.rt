//! Topics and their pages.

use crate::pages::{
    TOPIC_LIST, arguments, bodies, declarations, faults, imports, limits, machine, operands,
    summaries, texts,
};

/// A topic and its page.
pub struct Topic {
    /// What is asked for, as `40`, `fault 2`, `status 3` or `profile`.
    pub name: &'static str,
    /// The page, in lines of at most 100 columns.
    pub page: &'static str,
}

/// The page of a topic among these.
pub fn page_in(topics: &'static [Topic], topic: &str) -> Option<&'static str> {
    topics.iter().find(|it| it.name == topic).map(|it| it.page)
}

/// The page of a topic: `40` for a refusal, `fault 2`, `status 3`, `profile` or `statuses`. None if there is no page of this
/// name. [`list`] has all names.
pub fn page(topic: &str) -> Option<&'static str> {
    texts::page(topic)
        .or(imports::page(topic))
        .or(declarations::page(topic))
        .or(operands::page(topic))
        .or(arguments::page(topic))
        .or(bodies::page(topic))
        .or(limits::page(topic))
        .or(machine::page(topic))
        .or(faults::page(topic))
        .or(summaries::page(topic))
}

/// All topics, each in a line with what it is about.
pub fn list() -> &'static str {
    TOPIC_LIST
}
