//! What is said of a search that has found nothing for long.

use crate::streams::{hints_are_on, hints_of};
use cards::Fixed;
use clap::Error;
use deals_cli::Request;
use explain_conditions::rare_tests;
use sinks::console::Remark;
use std::alloc::Global;

/// Which tests of a search's condition hardly ever hold, for a person.
#[derive(Drop)]
pub struct Rare {
    alloc: Global,
    search: Option<Searched>,
}

/// A search that has a condition.
#[derive(Drop)]
struct Searched {
    condition: String,
    seed: u32,
    fixed: Fixed,
}

impl Rare {
    /// Of this request, if hints are said.
    pub fn of(rt: &HostRuntime, words: &[String], read: &Result<Request<'_>, Error>) -> Rare {
        let alloc = rt.alloc();
        let search = match read {
            Ok(request) if hints_are_on(rt, hints_of(words, read)) => with_condition(
                alloc, request,
            ),
            _ => None,
        };
        Rare { alloc, search }
    }
}

/// The search of a request that has a condition. None if its hands can't be read, or if memory runs
/// out.
fn with_condition(alloc: Global, request: &Request<'_>) -> Option<Searched> {
    let (search, _) = request.searched()?;
    let condition = search.where_text?;
    Some(Searched {
        condition: String::from_str(alloc, condition).ok()?,
        seed: search.seed,
        fixed: search.hands.read().ok()?,
    })
}

impl Remark for Rare {
    fn line(&self) -> Option<String> {
        let search = self.search.as_ref()?;
        let condition = search.condition.as_bytes();
        rare_tests(self.alloc, condition, search.seed, &search.fixed).unwrap_or(None)
    }
}
