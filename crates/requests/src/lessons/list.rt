//! The lesson of a name, and the pages that tell of lessons.

ghost use Rattle.std.specs.Prelude.{◌≡◌, ◌++◌, IfOk, OnOk, map, option_map, string_bytes};
ghost use Rattle.std.specs.List.{flat_map};
ghost use Rattle.requests.specs.Lessons.{command_for, group_text, lesson_named, lesson_of};
ghost use Rattle.requests.specs.Lessons.{lesson_text, lessons_text, line_of};
ghost use Rattle.requests.specs.internal.Groups.{lesson_at, title_and_lessons};

use crate::lessons::groups::groups;
use crate::lessons::lesson::{Group, Lesson, LessonRow, lesson_in};
use std::alloc::{AllocError, Global};

/// Returns the first lesson of this name, if there is one.
pub fn named(name: &str) -> Option<Lesson>
    ensures { option_map lesson_of result ≡ lesson_named name.now }
{
    let groups = groups();
    let mut rest: &[Group] = &groups;
    while let [group, others @ ..] = rest {
        if let Some(lesson) = lesson_in(group.rows, name) {
            return Some(lesson);
        }
        rest = others;
    }
    None
}

/// Returns the name of the lesson at this index, in the order of the list, if there are as many.
pub fn name_at(index: usize) -> Option<&'static str> {
    let mut left = index;
    for group in &groups() {
        if let Some(row) = group.rows.get(left) {
            return Some(row.0);
        }
        left = left.saturating_sub(group.rows.len());
    }
    None
}

/// Appends the line of a lesson in the list.
fn put_line(out: &mut String, row: &LessonRow) -> Result<(), AllocError>
    ensures { OnOk result
        (string_bytes out.new ≡ string_bytes out.old ++ line_of (lesson_at row.now)) }
{
    let (name, title, _, _) = *row;
    out.push_str("  ")?;
    out.push_str(name)?;
    out.push_str(": ")?;
    out.push_str(title)?;
    out.push_str("\n")
}

/// Appends the lines of these lessons.
fn put_lines(out: &mut String, rows: &[LessonRow]) -> Result<(), AllocError>
    ensures { OnOk result (string_bytes out.new
        ≡ string_bytes out.old ++ flat_map line_of (map lesson_at rows.now)) }
{
    let mut rest = rows;
    while let [row, others @ ..] = rest {
        put_line(out, row)?;
        rest = others;
    }
    Ok(())
}

/// Appends a group of the list.
fn put_group(out: &mut String, group: &Group) -> Result<(), AllocError>
    ensures { OnOk result (string_bytes out.new
        ≡ string_bytes out.old ++ group_text (title_and_lessons group.now)) }
{
    out.push_str(group.title)?;
    out.push_str("\n")?;
    put_lines(out, group.rows)?;
    out.push_str("\n")
}

/// Appends these groups of the list.
fn put_groups(out: &mut String, groups: &[Group]) -> Result<(), AllocError>
    ensures { OnOk result (string_bytes out.new
        ≡ string_bytes out.old ++ flat_map group_text (map title_and_lessons groups.now)) }
{
    let mut rest = groups;
    while let [group, others @ ..] = rest {
        put_group(out, group)?;
        rest = others;
    }
    Ok(())
}

/// Appends a command that deals the lesson of this name.
fn put_command(out: &mut String, name: &str) -> Result<(), AllocError>
    ensures { OnOk result (string_bytes out.new ≡ string_bytes out.old ++ command_for name.now) }
{
    out.push_str("deals make --seed 7 --boards 12 --lesson ")?;
    out.push_str(name)?;
    out.push_str("\n")
}

/// Appends what is told of one lesson.
fn put_lesson(out: &mut String, lesson: &Lesson) -> Result<(), AllocError>
    ensures { OnOk result
        (string_bytes out.new ≡ string_bytes out.old ++ lesson_text (lesson_of lesson.now)) }
{
    out.push_str(lesson.shows)?;
    out.push_str("\n\n")?;
    out.push_str(lesson.condition)?;
    out.push_str("\n\n")?;
    put_command(out, lesson.name)
}

/// Returns what is told of this lesson: what it shows, its condition and a command that deals it;
/// without one, the names and titles of all lessons, by groups.
///
/// # Errors
/// `AllocError` if an allocation failed.
pub fn page(alloc: Global, lesson: Option<Lesson>) -> Result<String, AllocError>
    ensures { IfOk result (λ text. string_bytes text
        ≡ lessons_text (option_map lesson_of lesson)) }
{
    let mut out = String::new(alloc);
    match lesson {
        Some(lesson) => put_lesson(&mut out, &lesson)?,
        None => {
            put_groups(&mut out, &groups())?;
            out.push_str("deals lessons NAME tells of one: what it shows, and its condition.\n")?;
        }
    }
    Ok(out)
}
