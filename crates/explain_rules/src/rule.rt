//! Rules and their sentences.

use crate::pages::RULES;

/// A rule and what it says.
pub struct Rule {
    /// The number in `refusal NUMBER`.
    pub number: u32,
    /// The title of the rule's page, without a full stop.
    pub sentence: &'static str,
}

/// What a rule says, in a sentence that begins with a small letter and has no full stop. None if no rule has this number.
pub fn sentence(rule: u32) -> Option<&'static str> {
    RULES
        .iter()
        .find(|it| it.number == rule)
        .map(|it| it.sentence)
}
