//! How long tokens and comments are, by their bytes.

/// How many bytes the comment has with which a text begins. Comments stand in comments. One that is not closed takes all.
pub fn comment_length(text: &[u8]) -> usize {
    let mut depth = 0usize;
    let mut before = b' ';
    for (at, byte) in text.iter().enumerate() {
        let pair = (before, *byte);
        before = *byte;
        if pair == (b'(', b'*') {
            depth = depth.saturating_add(1);
            before = b' ';
        } else if pair == (b'*', b')') {
            depth = depth.saturating_sub(1);
            before = b' ';
            if depth == 0 {
                return at + 1;
            }
        }
    }
    text.len()
}

/// How many bytes the token has with which a text begins.
pub fn token_length(rest: &[u8]) -> usize {
    match rest {
        [] => 0,
        [quote @ (b'"' | b'\''), others @ ..] => {
            match others.iter().position(|byte| byte == quote) {
                Some(last) => last.saturating_add(2),
                None => rest.len(),
            }
        }
        [b':' | b'<' | b'>', b'=', ..] | [b'<', b'>', ..] | [b'.', b'.', ..] => 2,
        [first, ..] if !first.is_ascii_alphanumeric() => 1,
        [_, ..] => rest
            .iter()
            .take_while(|byte| byte.is_ascii_alphanumeric())
            .count(),
    }
}
