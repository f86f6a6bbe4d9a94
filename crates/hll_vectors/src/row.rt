// SPDX-License-Identifier: Apache-2.0
//! A test vector: the lines of a plan, and its result.
use crate::wrong::Wrong;
use std::alloc::{AllocError, Global};

/// A plan, and its result.
#[derive(Drop)]
pub(crate) struct Row<'a> {
    pub(crate) plan: Vec<u8>,
    pub(crate) answer: Answer<'a>,
}

/// What a plan prints, without its LF.
#[derive(Clone, Copy)]
pub(crate) enum Answer<'a> {
    /// `= ` and what goes to standard output.
    Prints(&'a str),
    /// `+ ` and what goes to standard output; an image of the plan has bytes after it.
    PrintsBefore(&'a str),
    /// `! ` and what goes to standard error.
    Refused(&'a str),
}

/// Returns the lines of a test vector: those that are neither empty nor comments.
pub(crate) fn lines_of(alloc: Global, block: &str) -> Result<Vec<&str>, AllocError> {
    let mut lines = Vec::new(alloc);
    for line in block.lines() {
        if !line.is_empty() && !line.starts_with("//") {
            lines.push(line)?;
        }
    }
    Ok(lines)
}

impl<'a> Answer<'a> {
    /// Returns the result that a line gives, or `None` if it is no result.
    fn read(line: &'a str) -> Option<Answer<'a>> {
        if let Some(digits) = line.strip_prefix("= ") {
            Some(Answer::Prints(digits))
        } else if let Some(digits) = line.strip_prefix("+ ") {
            Some(Answer::PrintsBefore(digits))
        } else {
            line.strip_prefix("! ").map(Answer::Refused)
        }
    }
}

impl<'a> Row<'a> {
    /// Returns the test vector of some lines. The last line is its result.
    pub(crate) fn read(alloc: Global, lines: &[&'a str]) -> Result<Row<'a>, Wrong> {
        let Some((last, lines)) = lines.split_last() else {
            return Err(Wrong::NoAnswer);
        };
        let Some(answer) = Answer::read(last) else {
            return Err(Wrong::NoAnswer);
        };
        Ok(Row {
            plan: plan_of(alloc, lines)?,
            answer,
        })
    }
}

/// Returns the text of a plan: its lines with LF between them.
fn plan_of(alloc: Global, lines: &[&str]) -> Result<Vec<u8>, Wrong> {
    let mut plan = Vec::new(alloc);
    for (number, line) in lines.iter().enumerate() {
        if line.starts_with(['=', '+', '!']) {
            return Err(Wrong::NoAnswer);
        }
        if number > 0 {
            plan.push(b'\n')?;
        }
        push_unescaped(&mut plan, line.as_bytes())?;
    }
    Ok(plan)
}

/// Appends the bytes of a line. `\` and two hexadecimal digits stand for one byte.
fn push_unescaped(plan: &mut Vec<u8>, line: &[u8]) -> Result<(), Wrong> {
    for (number, part) in line.split(|byte| *byte == b'\\').enumerate() {
        if number == 0 {
            plan.extend_from_slice(part)?;
        } else {
            let mut byte = [0u8];
            let (digits, rest) = part.split_at(part.len().min(2));
            if hex::decode_to_slice(digits, &mut byte).is_err() {
                return Err(Wrong::Escape);
            }
            plan.extend_from_slice(&byte)?;
            plan.extend_from_slice(rest)?;
        }
    }
    Ok(())
}
