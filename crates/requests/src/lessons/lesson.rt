//! A lesson, and the first one of a name in a table.

ghost use Rattle.std.specs.Prelude.{◌≡◌, map, option_map};
ghost use Rattle.requests.specs.Lessons.{lesson_in, lesson_of};
ghost use Rattle.requests.specs.internal.Groups.{lesson_at};

/// A lesson that deals are asked for by its name.
#[derive(Clone, Copy)]
pub struct Lesson {
    /// Small letters, digits and hyphens.
    pub name: &'static str,
    pub title: &'static str,
    /// What its deals show, in a sentence or two.
    pub shows: &'static str,
    /// What each of its deals meets, in the language of conditions; North deals.
    pub condition: &'static str,
}

/// A lesson as the tables have it: what the fields of `Lesson` are, in their order. A proof can't
/// name a table of structs.
pub(crate) type LessonRow = (&'static str, &'static str, &'static str, &'static str);

/// Lessons under one title.
#[derive(Clone, Copy)]
pub(crate) struct Group {
    pub(crate) title: &'static str,
    pub(crate) rows: &'static [LessonRow],
}

impl Lesson {
    /// The lesson of a row.
    pub(crate) fn of(row: &LessonRow) -> Lesson
        ensures { lesson_of result ≡ lesson_at row.now }
    {
        let (name, title, shows, condition) = *row;
        Lesson {
            name,
            title,
            shows,
            condition,
        }
    }
}

/// The first lesson of these rows that has this name.
pub(crate) fn lesson_in(mut rows: &[LessonRow], name: &str) -> Option<Lesson>
    ensures { option_map lesson_of result
        ≡ lesson_in (map lesson_at rows.entry.now) name.now }
{
    while let [row, rest @ ..] = rows {
        if name == row.0 {
            return Some(Lesson::of(row));
        }
        rows = rest;
    }
    None
}
