//! Jobs: requests that were accepted, ready to be done.

ghost use Rattle.std.specs.Prelude.{IfErr, IfOk};
ghost use Rattle.jobs.specs.Jobs.{IsReady, IsReadyRun, IsRefused};
ghost use Rattle.requests.specs.PredealtHands.{given_by};
ghost use Rattle.requests.specs.Requests.{count, look_of, make, pick};
ghost use Rattle.requests.specs.Requests.{questions_of, search_of, show, wish_of};
ghost use Rattle.requests.specs.declared.request.Notices.{Notices as ANotices};
ghost use Rattle.requests.specs.declared.when.When.{When as AWhen};

use crate::boards_job::BoardsJob;
use crate::count_job::CountJob;
use crate::failure::Failure;
use crate::questions::read_subject;
use crate::search::{planned, read_condition, read_heading};
use boards::{Captions, Format, Plan, Show, TableStyle};
use requests::lessons::page;
use requests::{Look, Notices, PredealtHands, Questions, Request, Search, StreamRequest};
use std::alloc::Global;

/// What is ready to be done, and was asked for by a request.
#[derive(Drop)]
pub enum Job {
    Boards(BoardsJob),
    Count(CountJob),
    Pick(PickJob),
    Show(ShowJob),
    Conditions,
    /// The text of what is told of a lesson, or of all.
    Lessons(String),
    Seed,
    Stream(StreamRequest),
}

/// The boards of the candidates whose numbers the input gives.
#[derive(Clone, Copy)]
pub struct PickJob {
    pub plan: Plan,
    /// What is above the boards, as far as the format can write it.
    pub heading: Captions,
    pub format: Format,
    pub show: Show,
    /// Whether each line tells the board's tricks after its number.
    pub tricks: bool,
}

/// The boards of the games that the input has, under these labels.
#[derive(Clone, Copy)]
pub struct ShowJob {
    pub format: Format,
    pub show: Show,
    pub heading: Captions,
}

/// Returns the job of a request.
///
/// # Errors
///
/// The first refusal, in this order: of the plan, the labels, the hands, the definitions, the
/// condition, the questions, or their table's size; or `Interrupted` if memory ran out.
pub fn prepare(alloc: Global, request: &Request<'_>) -> Result<Job, Failure>
    ensures ready { IfOk result (IsReady (wish_of request.now)) }
    ensures refused { IfErr result (IsRefused (wish_of request.now)) }
{
    match request {
        Request::Make {
            search,
            look,
            tricks,
            notices,
        } => { Ok(Job::Boards(boards_job(alloc, search, look, *tricks, notices)?)) }
        Request::Find { search, notices } => {
            let look = Look::plain(Format::Numbers);
            Ok(Job::Boards(boards_job(alloc, search, &look, false, notices)?))
        }
        Request::Count {
            search,
            questions,
            style,
            ..
        } => count_job(alloc, search, questions, *style),
        Request::Pick {
            seed,
            hands,
            look,
            tricks,
            ..
        } => pick_job(*seed, hands, look, *tricks),
        Request::Show { look, .. } => show_job(look),
        Request::Conditions => Ok(Job::Conditions),
        Request::Lessons(lesson) => Ok(Job::Lessons(page(alloc, *lesson)?)),
        Request::Seed => Ok(Job::Seed),
        Request::Stream(request) => Ok(Job::Stream(*request)),
    }
}

/// Returns the job of a `make` or a `find`.
fn boards_job(
    alloc: Global,
    search: &Search<'_>,
    look: &Look<'_>,
    tricks: bool,
    notices: &Notices,
) -> Result<BoardsJob, Failure>
    ensures ready { IfOk result
        (IsReadyRun (search_of search.now) (look_of look.now) tricks notices.now) }
    ensures refused { IfErr result
        (IsRefused (make (search_of search.now) (look_of look.now) tricks notices.now)) }
{
    let (plan, heading) = planned(search, look)?;
    let condition = read_condition(alloc, search)?;
    Ok(BoardsJob {
        plan,
        condition,
        heading,
        format: look.format,
        show: look.show,
        tricks,
        workers: search.workers,
        report: notices.report,
    })
}

/// Returns the job of a `count`.
fn count_job(
    alloc: Global,
    search: &Search<'_>,
    questions: &Questions<'_>,
    style: TableStyle,
) -> Result<Job, Failure>
    ensures ready { (notices : ANotices) → IfOk result
        (IsReady (count (search_of search.now) (questions_of questions.now) style notices)) }
    ensures refused { (notices : ANotices) → IfErr result
        (IsRefused (count (search_of search.now) (questions_of questions.now) style notices)) }
{
    let (plan, _) = planned(search, &Look::plain(Format::Numbers))?;
    let condition = read_condition(alloc, search)?;
    let subject = read_subject(alloc, search.let_text, questions)?;
    Ok(Job::Count(CountJob {
        plan,
        condition,
        workers: search.workers,
        style,
        subject,
    }))
}

/// Returns the job of a `pick`.
fn pick_job(
    seed: u32,
    hands: &PredealtHands<'_>,
    look: &Look<'_>,
    tricks: bool,
) -> Result<Job, Failure>
    ensures ready { (hints : AWhen) → IfOk result
        (IsReady (pick seed (given_by hands.now) (look_of look.now) tricks hints)) }
    ensures refused { (hints : AWhen) → IfErr result
        (IsRefused (pick seed (given_by hands.now) (look_of look.now) tricks hints)) }
{
    let (plan, heading) = planned(&Search::none(seed, *hands), look)?;
    let Look { format, show, .. } = *look;
    Ok(Job::Pick(PickJob {
        plan,
        heading,
        format,
        show,
        tricks,
    }))
}

/// Returns the job of a `show`.
fn show_job(look: &Look<'_>) -> Result<Job, Failure>
    ensures ready { (hints : AWhen) → IfOk result (IsReady (show (look_of look.now) hints)) }
    ensures refused { (hints : AWhen) → IfErr result (IsRefused (show (look_of look.now) hints)) }
{
    let heading = read_heading(look)?;
    let Look { format, show, .. } = *look;
    Ok(Job::Show(ShowJob {
        format,
        show,
        heading,
    }))
}
