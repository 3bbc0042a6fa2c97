//! The calls that take memory, where any of it may be refused.
//!
//! Each test accepts either outcome, and checks what is after it. With ample memory every call
//! succeeds; `tests/faults/run libraries` has each allocation of each test fail in turn.

mod parsing;
mod pieces;
mod rings;
mod runs;
