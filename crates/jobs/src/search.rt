//! What the texts of a search and a look mean, and the plan of both.

ghost use Rattle.std.specs.Prelude.{◌≡◌, ◌↔◌, IfErr, IfOk, IfSome, IsSome, Some, option_map};
ghost use Rattle.cond_lang.specs.Form.{Form};
ghost use Rattle.jobs.specs.Failures.{status_of};
ghost use Rattle.jobs.specs.Makings.{BothMean, MayBeGiven, Means, TextMeans, CanDate, CanLabel};
ghost use Rattle.jobs.specs.Makings.{HasLabels, HasHands, IsTitle};
ghost use Rattle.jobs.specs.Makings.{HasNumbers};
ghost use Rattle.jobs.specs.Makings.{IsPlanned, heading_of, plan_of, setting_of};
ghost use Rattle.requests.specs.PredealtHands.{fixed_of};
ghost use Rattle.requests.specs.Requests.{Search as ASearch, look_of, search_of};
ghost use Rattle.jobs.specs.internal.Conditions.{IsConditionFailure, IsDefinitionsFailure};
ghost use Rattle.jobs.specs.internal.Conditions.{IsEitherFailure, IsTextFailure};
ghost use Rattle.jobs.specs.FirstRefusal.{IsDueRead, IsFirstOf, of_labels, IsFirstHand, IsPlanDue};
ghost use Rattle.jobs.specs.FirstRefusal.{of_numbers};
ghost use Rattle.boards.specs.Settings.{by_law};
ghost use Rattle.cards.specs.Fixed.{none_fixed};
ghost use Rattle.boards.specs.Headings.{no_heading};

use crate::failure::Failure;
use boards::{Caption, Captions, Date, Format, Label, Plan, PlanError, Setting};
use cards::Fixed;
use cond_lang::{Cond, CondError, check_definitions, parse, parse_after};
use requests::{LabelName, Look, Search};
use std::alloc::Global;

/// Accepts definitions alone, where some are given.
fn read_definitions(alloc: Global, given: Option<&str>) -> Result<(), Failure>
    ensures given { IfOk result (λ _. MayBeGiven (option_map (λ t. t.now) given.entry)) }
    ensures memory { IfErr result (λ e.
        MayBeGiven (option_map (λ t. t.now) given.entry) → status_of e ≡ 5) }
    ensures due { IfErr result (IsDefinitionsFailure (option_map (λ t. t.now) given.entry)) }
{
    let Some(text) = given else {
        return Ok(());
    };
    match check_definitions(alloc, text.as_bytes()) {
        Ok(()) => Ok(()),
        Err(error) => Err(Failure::of_definitions(error)),
    }
}

/// The condition that the text spells, after the definitions where some are given.
fn parse_given(alloc: Global, definitions: Option<&str>, text: &str) -> Result<Cond, CondError>
    requires { MayBeGiven (option_map (λ t. t.now) definitions) }
    ensures meant { IfOk result
        (TextMeans (option_map (λ t. t.now) definitions.entry) (Some text.now)) }
    ensures memory { IfErr result (λ e. (f : Form)
        → TextMeans (option_map (λ t. t.now) definitions.entry) (Some text.now) f
        → e ≡ CondError.Memory) }
    ensures due { IfErr result (IsDueRead (option_map (λ t. t.now) definitions.entry) text.now) }
{
    match definitions {
        None => parse(alloc, text.as_bytes()),
        Some(definitions) => parse_after(alloc, definitions.as_bytes(), text.as_bytes()),
    }
}

/// Returns what the text means; without one every deal is accepted.
fn read_text(alloc: Global, definitions: Option<&str>, given: Option<&str>) -> Result<Cond, Failure>
    requires { MayBeGiven (option_map (λ t. t.now) definitions) }
    ensures meant { IfOk result (TextMeans (option_map (λ t. t.now) definitions.entry)
        (option_map (λ t. t.now) given.entry)) }
    ensures memory { IfErr result (λ e. (f : Form)
        → TextMeans (option_map (λ t. t.now) definitions.entry)
        (option_map (λ t. t.now) given.entry) f → status_of e ≡ 5) }
    ensures due { IfErr result (IsTextFailure (option_map (λ t. t.now) definitions.entry)
        (option_map (λ t. t.now) given.entry)) }
{
    let Some(text) = given else {
        return Ok(Cond::any(alloc));
    };
    Ok(parse_given(alloc, definitions, text)?)
}

/// Returns what the lesson's condition and the condition mean, each of them a text of its own: with
/// both a deal meets both. Only the condition sees the names of the definitions.
fn read_both(alloc: Global, search: &Search<'_>) -> Result<Cond, Failure>
    requires { MayBeGiven (search_of search.now).let_text }
    ensures meant { IfOk result (BothMean (search_of search.now).lesson
        (search_of search.now).let_text (search_of search.now).where_text) }
    ensures memory { IfErr result (λ e. (f : Form)
        → BothMean (search_of search.now).lesson (search_of search.now).let_text
        (search_of search.now).where_text f → status_of e ≡ 5) }
    ensures due { IfErr result (IsEitherFailure (search_of search.now)) }
{
    if search.lesson.is_none() {
        return read_text(alloc, search.let_text, search.where_text);
    }
    let lesson = read_text(alloc, None, search.lesson)?;
    if search.where_text.is_none() {
        return Ok(lesson);
    }
    let condition = read_text(alloc, search.let_text, search.where_text)?;
    Ok(lesson.and(condition)?)
}

/// Returns which deals are accepted, by the definitions, the lesson's condition and the condition.
pub(crate) fn read_condition(alloc: Global, search: &Search<'_>) -> Result<Cond, Failure>
    ensures meant { IfOk result (Means (search_of search.now)) }
    ensures memory { IfErr result (λ e. (f : Form)
        → Means (search_of search.now) f → status_of e ≡ 5) }
    ensures due { IfErr result (IsConditionFailure (search_of search.now)) }
{
    read_definitions(alloc, search.let_text)?;
    read_both(alloc, search)
}

/// Returns the labels. The first one that can't be written in the format is refused.
pub(crate) fn read_heading(look: &Look<'_>) -> Result<Captions, Failure>
    ensures made { IfOk result (λ h. h ≡ heading_of (look_of look.now)) }
    ensures sound { IfOk result (λ _. HasLabels (look_of look.now)) }
    ensures due { IfErr result (λ e. (s : ASearch)
        → IsFirstOf of_labels s (look_of look.now) e) }
{
    let event = label_of(look.format, look.event, LabelName::Event)?;
    let site = label_of(look.format, look.site, LabelName::Site)?;
    Ok(Captions::new(event, site, date_of(look.date)?))
}

/// Returns what the options set in place of Law 2, and whether deals are turned.
fn read_setting(look: &Look<'_>) -> Setting
    ensures { result ≡ setting_of (look_of look.now) }
{
    Setting {
        dealer: look.dealer,
        vulnerable: look.vulnerable,
        rotate: look.rotate,
    }
}

/// Returns the caption of a text, if it is an event or a site of the format.
fn caption_in(format: Format, text: &str) -> Option<Caption>
    ensures kept { IfSome result (λ c. c ≡ text.now) }
    ensures sound { IsSome result ↔ IsTitle format text.now }
{
    match format {
        Format::Pbn => match Label::new(text.as_bytes()) {
            Some(label) => Some(Caption::of_label(&label)),
            None => None,
        },
        _ => Caption::new(text.as_bytes()),
    }
}

/// Returns the caption of a text that was given. It is refused if and only if the format can't
/// write it.
fn label_of(format: Format, text: Option<&str>, name: LabelName) -> Result<Option<Caption>, Failure>
    ensures made { IfOk result (λ l. l ≡ option_map (λ s. s.now) text.entry) }
    ensures sound { IfOk result (λ _. CanLabel format (option_map (λ s. s.now) text.entry)) }
    ensures refused { IfErr result (λ e. (e ≡ Failure.Label name)
        × (CanLabel format (option_map (λ s. s.now) text.entry) → ⊥)) }
{
    match text {
        None => Ok(None),
        Some(text) => match caption_in(format, text) {
            Some(caption) => Ok(Some(caption)),
            None => Err(Failure::Label(name)),
        },
    }
}

/// Returns the date of a text that was given. It is refused if and only if it isn't a date.
fn date_of(text: Option<&str>) -> Result<Option<Date>, Failure>
    ensures made { IfOk result (λ d. d ≡ option_map (λ s. s.now) text.entry) }
    ensures sound { IfOk result (λ _. CanDate (option_map (λ s. s.now) text.entry)) }
    ensures refused { IfErr result (λ e. (e ≡ Failure.Label LabelName.Date)
        × (CanDate (option_map (λ s. s.now) text.entry) → ⊥)) }
{
    match text {
        None => Ok(None),
        Some(text) => match Date::new(text.as_bytes()) {
            Some(date) => Ok(Some(date)),
            None => Err(Failure::Label(LabelName::Date)),
        },
    }
}

/// Returns the plan with the numbers of the options: the candidates, the workers, the lanes and the
/// boards.
#[tactic(auto, using(crate::proofs::FirstDue::numbers))]
fn numbers_of(search: &Search<'_>, look: &Look<'_>) -> Result<Plan, PlanError>
    ensures made { IfOk result (λ p.
        p ≡ record (plan_of (search_of search.now) (look_of look.now)) {
          heading = no_heading;
          setting = by_law;
          fixed = none_fixed;
        }) }
    ensures sound { IfOk result (λ _. HasNumbers (search_of search.now) (look_of look.now)) }
    ensures due { IfErr result (λ e.
        IsFirstOf of_numbers (search_of search.now) (look_of look.now) (Failure.Plan e)) }
{
    // The options have their names up to here. The plan calls the candidates its count, the lane
    // its capacity and the boards its limit.
    let plan = Plan::new(
        search.seed,
        search.first,
        search.candidates(),
        search.workers(),
        search.lane(),
    )?;
    let plan = match search.boards {
        Some(boards) => plan.limited(boards)?,
        None => plan,
    };
    plan.numbered(look.first_board())
}

/// Returns the cards that are fixed. The first text that isn't a hand, or has a card of an earlier
/// one, is refused.
fn fixed_of(search: &Search<'_>) -> Result<Fixed, Failure>
    ensures made { IfOk result (λ f. f ≡ fixed_of (search_of search.now).hands) }
    ensures sound { IfOk result (λ _. HasHands (search_of search.now)) }
    ensures due { IfErr result (IsFirstHand (search_of search.now)) }
{
    match search.hands.read() {
        Ok(fixed) => Ok(fixed),
        Err(seat) => Err(Failure::Hand(seat)),
    }
}

/// Returns the plan of a search and a look, with its fixed cards and its setting, and the labels.
///
/// # Errors
///
/// `Plan` with the first number that is refused; else `Label` with the first label that can't be
/// written; else `Hand` with the first seat whose text is refused.
#[tactic(auto, using(crate::proofs::FirstDue::plans))]
pub fn planned(search: &Search<'_>, look: &Look<'_>) -> Result<(Plan, Captions), Failure>
    ensures made { IfOk result (λ p. p.0 ≡ plan_of (search_of search.now) (look_of look.now)) }
    ensures heading { IfOk result (λ p. p.1 ≡ heading_of (look_of look.now)) }
    ensures sound { IfOk result (λ _. IsPlanned (search_of search.now) (look_of look.now)) }
    ensures due { IfErr result (IsPlanDue (search_of search.now) (look_of look.now)) }
{
    let plan = match numbers_of(search, look) {
        Ok(plan) => plan,
        Err(error) => return Err(Failure::Plan(error)),
    };
    let heading = read_heading(look)?;
    let fixed = fixed_of(search)?;
    let plan = plan
        .headed(heading.labels())
        .with_setting(read_setting(look));
    Ok((plan.with_fixed(fixed), heading))
}
