//! Reading the names and the steps of a run file.
ghost use Rattle.std.specs.Prelude.{◌≡◌, ◌+◌, ◌≤◌, [], length, vec_len, vec_capacity, Decides};
ghost use Rattle.run_file.specs.Texts.{texts};
ghost use Rattle.lexing.specs.Forms.{Name};
ghost use Rattle.run_file.specs.Form.{Apart};
ghost use Rattle.run_file.specs.Outcomes.{Roomy};
ghost use Rattle.run_file.specs.Sections.{NamesRead, StepsRead, HeadRead, FileRead};

use crate::faults::{FileFault, Why};
use crate::files::making::{NAMES, STEPS};
use crate::meaning::{Clients, place_of};
use crate::sections::Section;
use crate::steps::Line;
use commands::parse;
use lexing::{cut, is_name};

/// A file has at most so many bytes.
pub const BYTES: usize = 32768;

/// Whether a name may be added to the names: it is well formed and not there yet.
fn is_fresh(names: &[&[u8]], name: &[u8]) -> bool
    ensures { Decides result (Name name.now × Apart (texts names.now) name.now) }
{
    is_name(name) && place_of(names, name).is_none()
}

/// Reads so many names, and answers what comes after them.
pub(crate) fn read_names<'a>(
    text: &'a [u8],
    count: u32,
    names: &mut Vec<&'a [u8]>,
) -> Result<&'a [u8], FileFault>
    requires few { count ≤ NAMES }
    requires empty { names.old.items ≡ [] }
    requires room { NAMES ≤ vec_capacity names.old }
    ensures read { NamesRead text.now count result (texts names.new.items) }
    ensures room { vec_capacity names.new ≡ vec_capacity names.old }
{
    let mut rest = text;
    for line in 2..count + 2 {
        let (name, after) = cut(rest, b'\n').ok_or(Why::Name.at(line))?;
        if !is_fresh(names.as_slice(), name) {
            return Err(Why::Name.at(line));
        }
        names.push_reserved(name);
        rest = after;
    }
    Ok(rest)
}

/// Reads so many step lines, the first of which has this number in the file, and no byte may come after them.
pub(crate) fn read_steps<'a>(
    text: &'a [u8],
    count: u32,
    first: u32,
    clients: Clients<'_>,
    lines: &mut Vec<Line<'a>>,
) -> Result<(), FileFault>
    requires few { count ≤ STEPS }
    requires first { first ≤ 100 }
    requires empty { lines.old.items ≡ [] }
    requires room { STEPS ≤ vec_capacity lines.old }
    ensures read { StepsRead (texts clients.entry.names.now) text.now count first result lines.new.items }
    ensures room { vec_capacity lines.new ≡ vec_capacity lines.old }
{
    let mut rest = text;
    for number in first..first + count {
        let (line, after) = cut(rest, b'\n').ok_or(Why::Step.at(number))?;
        let command = parse(line, number).ok_or(Why::Step.at(number))?;
        let step = clients.step(command).ok_or(Why::Unlisted.at(number))?;
        lines.push_reserved(Line { text: line, step });
        rest = after;
    }
    if !rest.is_empty() {
        return Err(Why::Leftover.at(first + count));
    }
    Ok(())
}

/// Reads the head of a section, which has this line number in the file: its count, and what comes after it.
fn read_head(text: &[u8], section: Section, number: u32) -> Result<(u32, &[u8]), FileFault>
    ensures { HeadRead section text.now number result }
{
    let (line, rest) = cut(text, b'\n').ok_or(Why::Head.at(number))?;
    let count = section.count(line, number).ok_or(Why::Head.at(number))?;
    Ok((count as u32, rest))
}

/// Reads a file into names and lines, which are empty and have room for the largest file.
pub(crate) fn read_file<'a>(
    text: &'a [u8],
    names: &mut Vec<&'a [u8]>,
    lines: &mut Vec<Line<'a>>,
) -> Result<(), FileFault>
    requires no_names { names.old.items ≡ [] }
    requires no_lines { lines.old.items ≡ [] }
    requires room { Roomy (vec_capacity names.old) (vec_capacity lines.old) }
    ensures read { FileRead text.now result (texts names.new.items) lines.new.items }
    ensures room { (vec_capacity names.new ≡ vec_capacity names.old) × (vec_capacity lines.new ≡ vec_capacity lines.old) }
{
    if text.len() > BYTES {
        return Err(Why::TooLong.at(0));
    }
    let (count, rest) = read_head(text, Section::Names, 1)?;
    let rest = read_names(rest, count, names)?;
    let number = count + 2;
    let (steps, rest) = read_head(rest, Section::Steps, number)?;
    let clients = Clients {
        names: names.as_slice(),
    };
    read_steps(rest, steps, number + 1, clients, lines)
}
