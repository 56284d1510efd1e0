//! Parses lines into commands.

ghost use Rattle.std.specs.Prelude.{◌≡◌, ◌∷◌, [], List, option_map, MatchOption, IsTrue, ◌↔◌};
ghost use Rattle.std.specs.Prelude.{IfSome, option_copied, position, ◌==◌, if◌then◌else◌, Some};
ghost use Rattle.std.specs.Prelude.{None, true, false, ◌<◌, not};
ghost use Rattle.std.specs.List.{slice_split, list_all};
ghost use Rattle.command_loop.specs.Requests.{parse, is_name, is_path, fields, load_of, unload_of};
ghost use Rattle.command_loop.specs.Requests.{move_of, list_of, checked_load, checked_move};
ghost use Rattle.command_loop.specs.Requests.{request_of_fields, is_name_byte};
ghost use Rattle.command_line.specs.Numbers.{number};
ghost use Rattle.command_loop.specs.Commands.{parse_result};
ghost use Rattle.command_loop.specs.Private.Commands.{cut_parts};
ghost use Rattle.command_loop.specs.Text.{line_word};

use bstr::ByteSlice;
use command_line::parse_number;
use thiserror::Error;

/// The reason why a line is not a command.
#[derive(Clone, Copy, Debug, PartialEq, Eq, Error)]
#[error("{}", self.word())]
pub enum BadLine {
    /// The line has more than 4,096 bytes.
    LongLine = 1,
    /// The first field names no command, and the line is not a single number.
    Command = 2,
    /// The line has too few or too many fields.
    Fields = 3,
    /// A name does not consist of 1 to 64 letters, digits, `_`, `-` and `.`.
    Name = 4,
    /// A number does not consist of 1 to 16 hexadecimal digits.
    Number = 5,
    /// A path is empty, contains a NUL, or is not UTF-8.
    Path = 6,
}

impl BadLine {
    /// Returns the word after `refused` in the reply.
    pub fn word(self) -> &'static str
        ensures { result.now ≡ line_word self }
    {
        match self {
            BadLine::LongLine => "long-line",
            BadLine::Command => "command",
            BadLine::Fields => "fields",
            BadLine::Name => "name",
            BadLine::Number => "number",
            BadLine::Path => "path",
        }
    }
}

/// The command of a line.
#[derive(Debug, Clone, Copy)]
pub enum Command<'a> {
    Load(&'a str, u64, &'a str),
    Unload(&'a str),
    Move(&'a str, u64),
    List,
    Ask(u64),
}

/// Splits a line at its first space. Returns the bytes before it, and the bytes after it if there
/// is a space.
fn cut(text: &[u8]) -> (&[u8], Option<&[u8]>)
    ensures { fields text.now ≡ result.0.now ∷ cut_parts (option_copied result.1) }
{
    match text.find_byte(b' ') {
        None => (text, None),
        Some(at) => (&text[..at], Some(&text[at + 1..])),
    }
}

fn is_name_part(byte: u8) -> bool
    ensures { result ≡ is_name_byte byte }
{
    byte.is_ascii_alphanumeric() || byte == b'_' || byte == b'-' || byte == b'.'
}

/// Returns whether every byte is allowed in a name.
fn are_name_parts(text: &[u8]) -> bool
    ensures { result ≡ list_all is_name_byte text.now }
{
    text.iter().all(|byte| is_name_part(*byte))
}

/// Returns whether no byte is NUL.
fn has_no_nul(text: &[u8]) -> bool
    ensures { result ≡ list_all (λ byte. not (byte == 0)) text.now }
{
    text.find_byte(0).is_none()
}

/// Parses a name.
#[tactic(auto, unfolding(crate::specs::Requests::is_name))]
fn parse_name(text: &[u8]) -> Option<&str>
    ensures { MatchOption result (is_name text.now ≡ false)
        (λ name. (is_name text.now ≡ true) × (name.now ≡ text.now)) }
{
    if text.is_empty() || text.len() > 64 || !are_name_parts(text) {
        return None;
    }
    match text.to_str() {
        Ok(name) => Some(name),
        Err(_) => None,
    }
}

/// Parses a path.
#[tactic(auto, unfolding(crate::specs::Requests::is_path))]
fn parse_path(text: &[u8]) -> Option<&str>
    ensures { MatchOption result (is_path text.now ≡ false)
        (λ path. (is_path text.now ≡ true) × (path.now ≡ text.now)) }
{
    if text.is_empty() || !has_no_nul(text) {
        return None;
    }
    match text.to_str() {
        Ok(path) => Some(path),
        Err(_) => None,
    }
}

/// Checks the operands of a load in order: the name, the base, the path.
fn check_load<'a>(name: &'a [u8], base: &[u8], path: &'a [u8]) -> Result<Command<'a>, BadLine>
    ensures { parse_result result ≡ checked_load name.entry.now (number base.now) path.entry.now }
{
    let name = parse_name(name).ok_or(BadLine::Name)?;
    let base = parse_number(base).ok_or(BadLine::Number)?;
    let path = parse_path(path).ok_or(BadLine::Path)?;
    Ok(Command::Load(name, base, path))
}

/// Parses the operands of a load: a name, a base, and a path, which is everything after the third
/// space.
fn parse_load<'a>(operands: Option<&'a [u8]>) -> Result<Command<'a>, BadLine>
    ensures { parse_result result ≡ load_of (cut_parts (option_copied operands.entry)) }
{
    let Some(operands) = operands else {
        return Err(BadLine::Fields);
    };
    let (name, rest) = cut(operands);
    let Some(rest) = rest else {
        return Err(BadLine::Fields);
    };
    let (base, path) = cut(rest);
    let Some(path) = path else {
        return Err(BadLine::Fields);
    };
    check_load(name, base, path)
}

/// Parses the operand of an unload: a name.
fn parse_unload<'a>(operands: Option<&'a [u8]>) -> Result<Command<'a>, BadLine>
    ensures { parse_result result ≡ unload_of (cut_parts (option_copied operands.entry)) }
{
    let Some(operands) = operands else {
        return Err(BadLine::Fields);
    };
    let (name, rest) = cut(operands);
    if rest.is_some() {
        return Err(BadLine::Fields);
    }
    match parse_name(name) {
        Some(name) => Ok(Command::Unload(name)),
        None => Err(BadLine::Name),
    }
}

/// Checks the operands of a move in order: the name, the base.
fn check_move<'a>(name: &'a [u8], base: &[u8]) -> Result<Command<'a>, BadLine>
    ensures { parse_result result ≡ checked_move name.entry.now (number base.now) }
{
    let name = parse_name(name).ok_or(BadLine::Name)?;
    let base = parse_number(base).ok_or(BadLine::Number)?;
    Ok(Command::Move(name, base))
}

/// Parses the operands of a move: a name and a base.
fn parse_move<'a>(operands: Option<&'a [u8]>) -> Result<Command<'a>, BadLine>
    ensures { parse_result result ≡ move_of (cut_parts (option_copied operands.entry)) }
{
    let Some(operands) = operands else {
        return Err(BadLine::Fields);
    };
    let (name, rest) = cut(operands);
    let Some(rest) = rest else {
        return Err(BadLine::Fields);
    };
    let (base, more) = cut(rest);
    if more.is_some() {
        return Err(BadLine::Fields);
    }
    check_move(name, base)
}

/// Checks that a list has no operands.
fn parse_list<'a>(operands: Option<&'a [u8]>) -> Result<Command<'a>, BadLine>
    ensures { parse_result result ≡ list_of (cut_parts (option_copied operands.entry)) }
{
    match operands {
        None => Ok(Command::List),
        Some(_) => Err(BadLine::Fields),
    }
}

/// Parses a line, or returns the first rule that it breaks.
#[tactic(auto, unfolding(crate::specs::Requests::parse), using(crate::proofs::NumberLemmas::asks))]
pub fn parse_line(line: &[u8]) -> Result<Command<'_>, BadLine>
    ensures { parse_result result ≡ parse line.now }
{
    if line.len() > 4096 {
        return Err(BadLine::LongLine);
    }
    // Most lines are addresses.
    if let Some(address) = parse_number(line) {
        return Ok(Command::Ask(address));
    }
    let (word, operands) = cut(line);
    if word == b"load".as_slice() {
        parse_load(operands)
    } else if word == b"unload".as_slice() {
        parse_unload(operands)
    } else if word == b"move".as_slice() {
        parse_move(operands)
    } else if word == b"list".as_slice() {
        parse_list(operands)
    } else {
        Err(BadLine::Command)
    }
}
