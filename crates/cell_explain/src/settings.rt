//! Why settings are refused.
ghost use Rattle.std.specs.Prelude.{◌≡◌, ◌++◌, ℕ, List, IfOk, IsErr, OnOk, string_bytes, true};
ghost use Rattle.std.specs.Io.KnownBytes.{Appends};
ghost use Rattle.cell_output.specs.Watched.{IsSameWriter, bytes_held, has_refused};
ghost use Rattle.cell_explain.specs.Explained.{EndsAsCheck};
ghost use Rattle.cell_explain.specs.Settings.{SaysFirst, SaysKey, SaysSecond, SaysSettings, SaysSyntax, key_line};
ghost use Rattle.cell_explain.specs.Settings.{line_begin};
ghost use Rattle.cell_explain.specs.Told.{Tells, TellsPart};

use crate::said::Said;
use cell_output::{WatchedWriter, WriteFault, status};
use cell_ports::Plan;
use cell_settings::{KeyPath, SettingsError, read_settings, write_checked, write_escaped};
use cell_types::texts::read_axis;
use std::alloc::{AllocError, Global};
use std::io::Write;
use std::str;

// Whether a path that is written in settings is this one, or one below it.
fn is_below(written: &str, path: &str) -> bool {
    match written.strip_prefix(path) {
        Some(rest) => rest.is_empty() || rest.starts_with('.'),
        None => false,
    }
}

// The path of the table that a line begins, if it begins one.
fn table_of(line: &str) -> Option<&str> {
    let (table, _) = line.strip_prefix('[')?.split_once(']')?;
    Some(table.trim())
}

// Whether a line below a table's head writes the key of a path.
fn writes_key(line: &str, table: &str, path: &str) -> bool {
    let Some((key, _)) = line.split_once('=') else {
        return false;
    };
    if table.is_empty() {
        return is_below(key.trim(), path);
    }
    match path.strip_prefix(table) {
        Some(rest) => match rest.strip_prefix('.') {
            Some(rest) => is_below(key.trim(), rest),
            None => false,
        },
        None => false,
    }
}

// The line, counted from 1, that writes the key of a path, as far as a plain look at the lines finds it.
fn line_of(text: &str, path: &str) -> Option<u32> {
    let mut table = "";
    let mut number: u32 = 0;
    for line in text.lines() {
        number = number.saturating_add(1);
        let line = line.trim();
        match table_of(line) {
            Some(head) => {
                if is_below(head, path) {
                    return Some(number);
                }
                table = head;
            }
            None => {
                if writes_key(line, table, path) {
                    return Some(number);
                }
            }
        }
    }
    None
}

// What may stand at a key that settings have.
fn number_at(path: &str) -> &'static str {
    match path {
        "plates" => "a whole number from 1 to 100000",
        "journal_limit" => "a whole number from 1 to 1000000",
        "turns" => "a whole number from 1 to 10000000",
        _ if path.ends_with(".leave") => "a whole number from 2 to 999; 3 where none is given",
        _ => "a whole number above leave, to 1000; 20 where none is given",
    }
}

// What may stand in place of a key that settings don't have, or of a key that isn't a table.
fn key_at(path: &str) -> &'static str {
    let mut keys = path.split('.');
    match (keys.next(), keys.next(), keys.next()) {
        (Some("watch"), None, _) => "a table of axes",
        (_, None, _) => "no such key, but plates, journal_limit, turns and watch",
        (_, Some(axis), None) if read_axis(axis.as_bytes()).is_some() => {
            "a table with leave and limit"
        }
        (_, _, None) => {
            "no such axis, but feed_belt, table_lift, table_turn, robot_turn, arm_one, arm_two, press_one, press_two \
                and deposit_belt"
        }
        (Some("watch"), Some(axis), Some("leave" | "limit"))
            if keys.next().is_none() && read_axis(axis.as_bytes()).is_some() => {
            "in quotes this is one key, which settings don't have: it is written without quotes"
        }
        _ => "no such key, but leave and limit",
    }
}

// Where the key of a path is written, as a line begins that tells it; nothing where that isn't found.
fn line_begin(alloc: Global, line: Option<u32>) -> Result<String, AllocError>
    ensures { IfOk result (λ text. string_bytes text ≡ line_begin line) }
{
    match line {
        Some(line) => format!(in alloc; "line {line}: "),
        None => Ok(String::new(alloc)),
    }
}

// Writes the line of a key: where it is written, its path, and what may stand there.
fn write_key<W: Write>(
    writer: &mut WatchedWriter<'_, W>,
    begin: &str,
    path: &KeyPath,
    wanted: &str,
) -> Result<(), WriteFault>
    ensures writer { IsSameWriter writer.old writer.new }
    ensures whole { OnOk result (Appends (bytes_held W.contents writer.old) (bytes_held W.contents writer.new)
        (key_line begin.now path.now wanted.now)) }
    ensures fault { IsErr result → has_refused writer.new ≡ true }
{
    writer.write_bytes(begin.as_bytes())?;
    write_escaped(writer, path)?;
    writer.write_pieces(&[b": ", wanted.as_bytes(), b"\n"])
}

// The line and the column, both from 1, of the place behind a first part of a text. A column counts characters.
fn place_behind(before: &[u8]) -> (u32, u32) {
    let mut line: u32 = 1;
    let mut column: u32 = 1;
    for byte in before {
        if *byte == b'\n' {
            line = line.saturating_add(1);
            column = 1;
        } else if *byte & 0xC0 != 0x80 {
            column = column.saturating_add(1);
        }
    }
    (line, column)
}

// The line of a text that is no TOML: where it isn't, and why.
fn syntax_line(alloc: Global, text: &[u8]) -> Result<String, AllocError>
    ensures { IfOk result (λ said. SaysSyntax (string_bytes said)) }
{
    let Err(error) = toml::table_from_slice(alloc, text) else {
        return Err(AllocError);
    };
    let Some(span) = error.span() else {
        return Err(AllocError);
    };
    let (line, column) = place_behind(text.get(..span.start).unwrap_or(text));
    let why = error.message();
    format!(in alloc; "line {line}, column {column}: {why}\n")
}

// Where the key of a path is written in a text, as far as a plain look at the lines finds it.
fn found_line(text: &[u8], path: &KeyPath) -> Option<u32> {
    match str::from_utf8(text) {
        Ok(text) => line_of(text, path.as_str()),
        Err(_) => None,
    }
}

// Adds the line of a key to those that are said. It is false where memory was refused.
fn add_key(alloc: Global, text: &[u8], path: &KeyPath, wanted: &str, lines: &mut Vec<u8>) -> bool
    ensures { result ≡ true → (second : List ℕ) × SaysKey path.now second
        × (lines.new.items ≡ lines.old.items ++ second) }
{
    let Ok(begin) = line_begin(alloc, found_line(text, path)) else {
        return false;
    };
    let mut writer = WatchedWriter::new(lines);
    write_key(&mut writer, begin.as_str(), path, wanted).is_ok()
}

// Adds the second line of settings to those that are said. It is false where memory was refused.
fn add_second(
    alloc: Global,
    text: &[u8],
    answer: &Result<Plan, SettingsError>,
    lines: &mut Vec<u8>,
) -> bool
    ensures { result ≡ true → (second : List ℕ) × SaysSecond answer.now second
        × (lines.new.items ≡ lines.old.items ++ second) }
{
    match answer {
        Ok(_) => true,
        Err(SettingsError::NotToml) => match syntax_line(alloc, text) {
            Ok(line) => lines.extend_from_slice(line.as_bytes()).is_ok(),
            Err(_) => false,
        },
        Err(SettingsError::UnknownKey(path)) => {
            add_key(alloc, text, path, key_at(path.as_str()), lines)
        }
        Err(
            SettingsError::Missing(path)
            | SettingsError::NotNumber(path)
            | SettingsError::OutOfRange(path),
        ) => add_key(alloc, text, path, number_at(path.as_str()), lines),
        Err(SettingsError::OutOfMemory) => true,
    }
}

// The first line of settings, and its status: that of the program's check.
fn first_line(alloc: Global, answer: &Result<Plan, SettingsError>) -> Said
    ensures { SaysFirst answer.now result.status result.text.items }
{
    let mut lines = Vec::new(alloc);
    let mut writer = WatchedWriter::new(&mut lines);
    match write_checked(&mut writer, answer) {
        Ok(ended) => Said {
            status: ended,
            text: lines,
        },
        Err(_) => Said::nothing(alloc),
    }
}

// What is said of settings.
fn say_settings(alloc: Global, text: &[u8]) -> Said
    ensures { SaysSettings text.now result.status result.text.items }
{
    let answer = read_settings(alloc, text);
    let mut said = first_line(alloc, &answer);
    if said.status == status::OUT_OF_MEMORY || !add_second(alloc, text, &answer, &mut said.text) {
        return Said::nothing(alloc);
    }
    said
}

/// Writes what is to be said of settings to a writer that notes whether a write of it was refused, and gives the exit
/// status, which is that of `check_lines`.
///
/// First the line of `check_lines`. Of settings that are refused there is a second line: where they are wrong and what
/// is wanted there. A text that is no TOML is told by its line and column, a key by its line where that is found, and
/// by its path. Where memory is refused (status 4) nothing is written.
pub fn explain_settings<W: Write>(
    alloc: Global,
    text: &[u8],
    writer: &mut WatchedWriter<'_, W>,
) -> Result<u8, WriteFault>
    ensures writer { IsSameWriter writer.old writer.new }
    // The status is that of an answer to the settings.
    ensures status { IfOk result (EndsAsCheck text.now) }
    // What is written is what is said of the settings with this status.
    ensures told { IfOk result (λ s. Tells (SaysSettings text.now s) (bytes_held W.contents writer.old)
        (bytes_held W.contents writer.new)) }
    // Where the writer failed, a first part of it was written.
    ensures part { IsErr result → (s : ℕ) × TellsPart (SaysSettings text.now s) (bytes_held W.contents writer.old)
        (bytes_held W.contents writer.new) }
    // It answers that the writer failed only where a write was refused.
    ensures fault { IsErr result → has_refused writer.new ≡ true }
{
    let said = say_settings(alloc, text);
    said.write(writer)
}
