//! Cases of commands over an input, and what they are to be answered with.
//!
//! | Line | Means |
//! |---|---|
//! | `@case run 2` | a case begins, with the words of its command |
//! | `@put node = 5` | this part of the input becomes what stands below |
//! | `@behind` | what stands below stands behind the input |
//! | `@told Ok` | the status, and below it the text |
//!
//! A backslash takes the end of its line away, and `\r` is a carriage return. Where `...` stands on
//! a line of a text that is told, any text may stand.
ghost use Rattle.std.specs.Prelude.{◌<◌, ◌^◌, length};

use command_answers::{Answer, answer_to};
use command_words::command_of;
use std::alloc::{AllocError, AllocGlobal, Global};
use std::process::Abort;
use std::test::Fail;

/// The most bytes of input that the program takes.
const INPUT_LIMIT: usize = 67_108_864;

fn words_of(alloc: Global, line: &str) -> Result<Vec<String>, AllocError> {
    let mut words = Vec::new(alloc);
    for word in line.split_whitespace() {
        words.push(String::from_str(alloc, word)?)?;
    }
    Ok(words)
}

/// The answer to words over an input, where they are a command.
fn answer_over(alloc: Global, words: &[String], input: &[u8]) -> Option<Answer>
    requires { length input.now < 2 ^ 32 }
{
    let Ok(asked) = command_of(alloc, words) else {
        return None;
    };
    let Some(command) = asked else {
        return None;
    };
    answer_to(alloc, command, input).ok()
}

/// The answer to the words of a line over an input: the name of its status, and below it the text.
pub(crate) fn answered(alloc: Global, line: &str, input: &str) -> Result<String, Fail> {
    if input.len() > INPUT_LIMIT {
        return Err("an input")?;
    }
    let words = words_of(alloc, line)?;
    let Some(Answer { status, text }) = answer_over(alloc, &words, input.as_bytes()) else {
        return Err("an answer")?;
    };
    let text = String::from_utf8_lossy(alloc, text.as_slice())?;
    Ok(format!(in alloc; "{status:?}\n{text}")?)
}

/// Whether a text is as it is told, where `...` may stand for any text.
pub(crate) fn is_as_told(text: &str, told: &str) -> bool {
    let Some((front, behind)) = told.split_once("...\n") else {
        return text == told;
    };
    let Some(mut rest) = text.strip_prefix(front) else {
        return false;
    };
    let (parts, end) = behind.rsplit_once("...\n").unwrap_or(("", behind));
    for part in parts.split("...\n") {
        let Some((_, other)) = rest.split_once(part) else {
            return false;
        };
        rest = other;
    }
    rest.ends_with(end)
}

/// The input with one change.
fn changed(alloc: Global, input: &str, change: &str) -> Result<String, Fail> {
    let (head, text) = change.split_once('\n').ok_or("a change")?;
    let Some(part) = head.strip_prefix("put ") else {
        return Ok(format!(in alloc; "{input}{text}")?);
    };
    let (front, back) = input.split_once(part).ok_or("the part")?;
    let text = text.strip_suffix('\n').ok_or("a line")?;
    Ok(format!(in alloc; "{front}{text}{back}")?)
}

/// The input with the changes of a case.
fn input_of(alloc: Global, input: &str, changes: &str) -> Result<String, Fail> {
    let mut input = String::from_str(alloc, input)?;
    for change in changes.split('@').skip(1) {
        input = changed(alloc, input.as_str(), change)?;
    }
    Ok(input)
}

/// Whether a case is answered as it is told.
fn holds(alloc: Global, input: &str, case: &str) -> Result<bool, Fail> {
    let (call, told) = case.split_once("@told ").ok_or("what is told")?;
    let (line, changes) = call.split_once('\n').ok_or("the words")?;
    let input = input_of(alloc, input, changes)?;
    let answer = answered(alloc, line, input.as_str())?;
    Ok(is_as_told(answer.as_str(), told))
}

/// Each case over an input is answered as it is told.
pub(crate) fn show(rt: &(impl Abort + AllocGlobal), input: &str, cases: &str) -> Result<(), Fail> {
    let alloc = rt.alloc();
    let cases = cases.replace(alloc, "\\\n", "")?;
    let cases = cases.replace(alloc, "\\r", "\r")?;
    for case in cases.split("@case ").skip(1) {
        assert!(rt; holds(alloc, input, case)?, "{case}");
    }
    Ok(())
}
