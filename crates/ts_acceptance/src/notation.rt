//! Rules in a short notation in; a grammar file out.
use std::alloc::{AllocError, Global};

/// The grammar file of these rules, with `;` between them. A rule is its name, `=` and words with
/// blanks between them: `[` and `]` enclose a SEQ, `'..'` is a STRING and a name a SYMBOL. Names
/// and texts are spelled as in JSON. The file's object has `members` before its name.
pub(crate) fn grammar_of(alloc: Global, members: &str, rules: &str) -> Result<String, AllocError> {
    let mut file = String::from_str(alloc, "{")?;
    push_enclosed(&mut file, "", members, r#""name":"g","rules":{"#)?;
    for (number, rule) in rules.split(';').enumerate() {
        push_comma_if(&mut file, number > 0)?;
        push_rule(&mut file, rule)?;
    }
    file.push_str("}}")?;
    Ok(file)
}

fn push_rule(file: &mut String, rule: &str) -> Result<(), AllocError> {
    let Some((name, tree)) = rule.split_once('=') else {
        return Ok(());
    };
    push_enclosed(file, "\"", name.trim(), "\":")?;
    let mut later = false;
    for word in tree.split_whitespace() {
        if word == "]" {
            file.push_str("]}")?;
        } else {
            push_comma_if(file, later)?;
            push_word(file, word)?;
        }
        later = word != "[";
    }
    Ok(())
}

fn push_comma_if(file: &mut String, later: bool) -> Result<(), AllocError> {
    if later { file.push_str(",") } else { Ok(()) }
}

fn push_word(file: &mut String, word: &str) -> Result<(), AllocError> {
    if word == "[" {
        return file.push_str(r#"{"type":"SEQ","members":["#);
    }
    match word.strip_prefix('\'') {
        Some(text) => push_enclosed(
            file,
            r#"{"type":"STRING","value":""#,
            text.trim_end_matches('\''),
            "\"}",
        ),
        None => push_enclosed(file, r#"{"type":"SYMBOL","name":""#, word, "\"}"),
    }
}

fn push_enclosed(
    file: &mut String,
    before: &str,
    text: &str,
    after: &str,
) -> Result<(), AllocError> {
    file.push_str(before)?;
    file.push_str(text)?;
    file.push_str(after)
}
