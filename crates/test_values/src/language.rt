//! The functions of the language, each with values from outside. What else texts mean, where they
//! are refused and what may come there is asked of the built program, by tests/rows and
//! tests/second.

mod beginnings;
mod excluded;
mod questions;
mod spelling;
mod trees;
mod truths;
mod words;

use cards::Deal;
use cond_lang::{Cond, CondError, parse};
use std::alloc::Global;
use std::test::Fail;
