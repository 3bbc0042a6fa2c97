//! What the texts of a `count` ask.

ghost use Rattle.std.specs.Prelude.{◌≡◌, ◌≤◌, ◌++◌, ◌∷◌, [], IfErr, IfOk, List, MatchResult};
ghost use Rattle.std.specs.Prelude.{length, option_map};
ghost use Rattle.cond_lang.specs.Asking.{SpellsQuestion};
ghost use Rattle.conditions.specs.Questions.{Question as AQuestion, parts_asked};
ghost use Rattle.conditions.specs.declared.limits.TheConstants.{MOST_PARTS};
ghost use Rattle.jobs.specs.Counting.{AskEach, Asks, IsAsked, IsQuestion};
ghost use Rattle.jobs.specs.Failures.{status_of};
ghost use Rattle.jobs.specs.FirstRefusal.{IsDueAsked, last_of};
ghost use Rattle.jobs.specs.Makings.{MayBeGiven, text_read};
ghost use Rattle.requests.specs.Requests.{each_question, questions_of, texts_of};
ghost use Rattle.jobs.specs.internal.QuestionFailures.{AreFailure, IsTextFailure};
ghost use Rattle.statistics.specs.Counting.{TitledQuestion as ATitledQuestion, Subject as ASubject};
ghost use Rattle.statistics.specs.Subjects.{subject_of};

use crate::failure::Failure;
use cond_lang::{CondError, Question, parse_question, parse_question_after};
use requests::{MAX_QUESTIONS, QuestionName, Questions, Texts};
use statistics::{Subject, TitledQuestion};
use std::alloc::{AllocError, Global};

/// The question that the text spells, after the definitions where some are given.
fn ask_given(alloc: Global, definitions: Option<&str>, text: &str) -> Result<Question, CondError>
    requires { MayBeGiven (option_map (λ t. t.now) definitions) }
    ensures short { IfOk result (λ _. length text.now ≤ 1024) }
    ensures asked { IfOk result
        (SpellsQuestion (text_read (option_map (λ t. t.now) definitions.entry) text.now)) }
    ensures few { IfOk result (λ q. parts_asked q ≤ MOST_PARTS) }
    ensures spelled { (q : AQuestion) → length text.now ≤ 1024
        → SpellsQuestion (text_read (option_map (λ t. t.now) definitions.entry) text.now) q
        → parts_asked q ≤ MOST_PARTS
        → MatchResult result (λ r. r ≡ q) (λ e. e ≡ CondError.Memory) }
    ensures due { IfErr result (IsDueAsked (option_map (λ t. t.now) definitions.entry) text.now) }
{
    match definitions {
        None => parse_question(alloc, text.as_bytes()),
        Some(definitions) => {
            parse_question_after(alloc, definitions.as_bytes(), text.as_bytes())
        }
    }
}

/// Returns what the text of a question asks, after the definitions where some are given.
fn asked_of(
    alloc: Global,
    definitions: Option<&str>,
    name: QuestionName,
    text: &str,
) -> Result<TitledQuestion, Failure>
    requires { MayBeGiven (option_map (λ t. t.now) definitions) }
    ensures asked { IfOk result
        (IsQuestion (option_map (λ t. t.now) definitions.entry) text.now) }
    ensures only { IfOk result (λ a. (b : ATitledQuestion)
        → IsQuestion (option_map (λ t. t.now) definitions.entry) text.now b → b ≡ a) }
    ensures refused { IfErr result
        (IsTextFailure (option_map (λ t. t.now) definitions.entry) name text.now) }
    ensures memory { IfErr result (λ e. (b : ATitledQuestion)
        → IsQuestion (option_map (λ t. t.now) definitions.entry) text.now b
        → status_of e ≡ 5) }
{
    match ask_given(alloc, definitions, text) {
        Ok(question) => Ok(TitledQuestion::new(alloc, question, text.as_bytes())?),
        Err(error) => Err(Failure::of_question(name, error)),
    }
}

/// The name of the last question, which makes a table too large.
fn last_of(questions: &Questions<'_>) -> QuestionName
    ensures { result ≡ last_of (questions_of questions.now) }
{
    match questions {
        Questions::Two { .. } => QuestionName::By,
        Questions::None | Questions::One(_) | Questions::Each(_) => QuestionName::Of,
    }
}

/// Returns what the texts ask. The error is that of the first text that is refused, or else that
/// the table could have too many cells.
pub(crate) fn read_subject(
    alloc: Global,
    definitions: Option<&str>,
    questions: &Questions<'_>,
) -> Result<Subject, Failure>
    requires { MayBeGiven (option_map (λ t. t.now) definitions) }
    ensures asked { IfOk result (λ s. IsAsked (option_map (λ t. t.now) definitions.entry)
        (questions_of questions.now) (subject_of s)) }
    ensures refused { IfErr result (AreFailure (option_map (λ t. t.now) definitions.entry)
        (questions_of questions.now)) }
    ensures memory { IfErr result (λ e. (s : ASubject)
        → IsAsked (option_map (λ t. t.now) definitions.entry) (questions_of questions.now) s
        → status_of e ≡ 5) }
{
    let subject = read_texts(alloc, definitions, questions)?;
    if subject.is_too_large() {
        return Err(Failure::Cells(last_of(questions)));
    }
    Ok(subject)
}

/// Returns what the texts ask, however many cells its table can have.
fn read_texts(
    alloc: Global,
    definitions: Option<&str>,
    questions: &Questions<'_>,
) -> Result<Subject, Failure>
    requires { MayBeGiven (option_map (λ t. t.now) definitions) }
    ensures asks { IfOk result (λ s. Asks (option_map (λ t. t.now) definitions.entry)
        (questions_of questions.now) (subject_of s)) }
    ensures only { IfOk result (λ s. (t : ASubject)
        → Asks (option_map (λ t. t.now) definitions.entry) (questions_of questions.now) t
        → t ≡ subject_of s) }
    ensures refused { IfErr result (AreFailure (option_map (λ t. t.now) definitions.entry)
        (questions_of questions.now)) }
    ensures memory { IfErr result (λ e. (s : ASubject)
        → Asks (option_map (λ t. t.now) definitions.entry) (questions_of questions.now) s
        → status_of e ≡ 5) }
{
    match questions {
        Questions::None => Ok(Subject::DealsAlone),
        Questions::One(text) => {
            Ok(Subject::ByOne(asked_of(alloc, definitions, QuestionName::Of, text)?))
        }
        Questions::Two { of, by } => {
            let of = asked_of(alloc, definitions, QuestionName::Of, of)?;
            let by = asked_of(alloc, definitions, QuestionName::By, by)?;
            Ok(Subject::ByTwo(of, by))
        }
        Questions::Each(texts) => Ok(Subject::ByEach(read_each(alloc, definitions, texts)?)),
    }
}

/// Returns the questions that the texts ask. The first that is refused is reported.
fn read_each(
    alloc: Global,
    definitions: Option<&str>,
    texts: &Texts<'_>,
) -> Result<Vec<TitledQuestion>, Failure>
    requires { MayBeGiven (option_map (λ t. t.now) definitions) }
    ensures asks { IfOk result (λ v. AskEach (option_map (λ t. t.now) definitions.entry)
        (texts_of texts.now) v.items) }
    ensures only { IfOk result (λ v. (b : List ATitledQuestion)
        → AskEach (option_map (λ t. t.now) definitions.entry) (texts_of texts.now) b
        → b ≡ v.items) }
    ensures refused { IfErr result (AreFailure (option_map (λ t. t.now) definitions.entry)
        (each_question (texts_of texts.now))) }
    ensures memory { IfErr result (λ e. (b : List ATitledQuestion)
        → AskEach (option_map (λ t. t.now) definitions.entry) (texts_of texts.now) b
        → status_of e ≡ 5) }
{
    let mut asked = Vec::with_capacity(alloc, MAX_QUESTIONS)?;
    for place in 0..MAX_QUESTIONS {
        if let Some(text) = texts.get(place) {
            let question = asked_of(alloc, definitions, QuestionName::Of, text)?;
            keep(&mut asked, question)?;
        }
    }
    Ok(asked)
}

/// Keeps one question more.
fn keep(asked: &mut Vec<TitledQuestion>, question: TitledQuestion) -> Result<(), AllocError>
    ensures { IfOk result (λ _. asked.new.items ≡ asked.old.items ++ question ∷ []) }
{
    asked.push(question)?;
    Ok(())
}
