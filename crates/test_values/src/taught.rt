//! Lessons: each is found by its name, and its condition is read.

use crate::support::same;
use cond_lang::parse;
use requests::lessons::{name_at, named};
use std::test::Fail;

/// More than there are.
const MOST: usize = 100;

#[test]
fn each_lesson_is_read(rt: HostRuntime) -> Result<(), Fail> {
    let mut count: usize = 0;
    for index in 0..MOST {
        let Some(name) = name_at(index) else {
            break;
        };
        let lesson = named(name).expect(&rt, "a lesson of this name");
        same(&rt, lesson.name, name);
        same(
            &rt,
            parse(rt.alloc(), lesson.condition.as_bytes()).is_ok(),
            true,
        );
        count = index + 1;
    }
    same(&rt, count, 67);
    same(&rt, named("").is_none(), true);
    Ok(())
}
