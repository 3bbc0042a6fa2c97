//! Plans: which candidates are tried, how the run works, and which boards are written.

ghost use Rattle.std.specs.Prelude.{◌≡◌, ◌+◌, ◌≤◌, ◌<◌, ◌^◌, ◌↔◌, None, Some, IfErr, IfOk, IfSome};
ghost use Rattle.std.specs.Prelude.{IsErr, IsOk};
ghost use Rattle.boards.specs.Settings.{by_law};
ghost use Rattle.cards.specs.Fixed.{IsFixed, none_fixed};
ghost use Rattle.boards.specs.Headings.{no_heading};
ghost use Rattle.boards.specs.Refusals.{refusal_of};

use crate::{Heading, Setting};
use cards::{Fixed, MAX_CANDIDATES, MAX_CAPACITY, MAX_WORKERS};
use std::marker::Model;
use thiserror::Error;

/// Why there is no such plan.
#[derive(Clone, Copy, Debug, PartialEq, Eq, Error)]
pub enum PlanError {
    #[error("first + count is above 2^40")]
    Range,
    #[error("workers are not 1 to 16")]
    Workers,
    #[error("the lane capacity is not 1 to 4096")]
    Capacity,
    #[error("a limit of no boards")]
    Boards,
    #[error("the first board is not 1 to 2^40")]
    FirstBoard,
}

/// A run: the candidates `first` to `first + count - 1` of a seed, tried by `workers` workers, each
/// at most `capacity` verdicts ahead of the writer; the accepted ones are boards from `first_board`
/// on, under a heading, `limit` of them at most. Its setting says who deals them, which sides are
/// vulnerable, and whether deals are turned. Cards may be fixed at seats before the deals.
#[derive(Clone, Copy)]
pub struct Plan {
    seed: u32,
    first: u64,
    count: u64,
    workers: u32,
    capacity: u32,
    limit: Option<u32>,
    first_board: u64,
    heading: Heading,
    setting: Setting,
    fixed: Fixed,
}

impl Model for Plan {
    ghost use Rattle.std.specs.Prelude.{◌+◌, ◌≤◌, ◌<◌, ◌^◌};
    ghost use Rattle.std.specs.Option.{ForSome};
    ghost use Rattle.boards.specs.Plans.{Planned};

    ghost Value = { Planned };

    ghost view = { λ p. record {
      seed = p.seed;
      first = p.first;
      count = p.count;
      workers = p.workers;
      capacity = p.capacity;
      limit = p.limit;
      first_board = p.first_board;
      heading = p.heading;
      setting = p.setting;
      fixed = p.fixed;
    } };

    ghost invariant = { λ p. record {
      candidates : p.first + p.count ≤ 2 ^ 40;
      workers : (0 < p.workers) × (p.workers ≤ 16);
      capacity : (0 < p.capacity) × (p.capacity ≤ 4096);
      limit : ForSome p.limit (λ most. 0 < most);
      boards : (0 < p.first_board) × (p.first_board ≤ 2 ^ 40);
    } };

    ghost inverse = { λ v. record {
      seed = v.seed;
      first = v.first;
      count = v.count;
      workers = v.workers;
      capacity = v.capacity;
      limit = v.limit;
      first_board = v.first_board;
      heading = v.heading;
      setting = v.setting;
      fixed = v.fixed;
    } };
}

impl Plan {
    /// Returns a plan with no limit, boards numbered from 1, Law 2, no heading and no fixed card.
    ///
    /// # Errors
    ///
    /// `Range` if `first + count` is above 2^40; else `Workers` unless `workers` is 1 to 16; else
    /// `Capacity` unless `capacity` is 1 to 4,096.
    pub fn new(
        seed: u32,
        first: u64,
        count: u64,
        workers: u32,
        capacity: u32,
    ) -> Result<Plan, PlanError>
        ensures in_range { IsOk result ↔ ((first + count ≤ 2 ^ 40)
            × ((0 < workers) × (workers ≤ 16))
            × ((0 < capacity) × (capacity ≤ 4096))) }
        ensures made { IfOk result (λ p. p ≡ record {
          seed = seed;
          first = first;
          count = count;
          workers = workers;
          capacity = capacity;
          limit = None;
          first_board = 1;
          heading = no_heading;
          setting = by_law;
          fixed = none_fixed;
        }) }
        ensures refused { IfErr result (λ e. e ≡ refusal_of first count workers) }
    {
        match first.checked_add(count) {
            Some(end) if end <= MAX_CANDIDATES => {}
            _ => return Err(PlanError::Range),
        }
        if workers == 0 || workers > MAX_WORKERS {
            return Err(PlanError::Workers);
        }
        if capacity == 0 || capacity > MAX_CAPACITY {
            return Err(PlanError::Capacity);
        }
        Ok(Plan {
            seed,
            first,
            count,
            workers,
            capacity,
            limit: None,
            first_board: 1,
            heading: Heading::none(),
            setting: Setting::by_law(),
            fixed: Fixed::none(),
        })
    }

    /// Returns the plan with a limit of boards.
    ///
    /// # Errors
    /// `Boards` if the limit is 0.
    pub fn limited(self, most: u32) -> Result<Plan, PlanError>
        ensures some { IsErr result ↔ (most ≡ 0) }
        ensures made { IfOk result (λ p. p ≡ record self { limit = Some most }) }
        ensures refused { IfErr result (λ e. e ≡ PlanError.Boards) }
    {
        if most == 0 {
            return Err(PlanError::Boards);
        }
        Ok(Plan {
            limit: Some(most),
            ..self
        })
    }

    /// Returns the plan with boards from this number on.
    ///
    /// # Errors
    /// `FirstBoard` unless the number is 1 to 2^40.
    pub fn numbered(self, first_board: u64) -> Result<Plan, PlanError>
        ensures in_range { IsOk result ↔ ((0 < first_board) × (first_board ≤ 2 ^ 40)) }
        ensures made { IfOk result (λ p. p ≡ record self { first_board = first_board }) }
        ensures refused { IfErr result (λ e. e ≡ PlanError.FirstBoard) }
    {
        if first_board == 0 || first_board > MAX_CANDIDATES {
            return Err(PlanError::FirstBoard);
        }
        Ok(Plan {
            first_board,
            ..self
        })
    }

    /// Returns the plan with this many workers, 1 to 16.
    pub fn with_workers(self, workers: u32) -> Plan
        requires { (0 < workers) × (workers ≤ 16) }
        ensures { result ≡ record self { workers = workers } }
    {
        Plan { workers, ..self }
    }

    /// The plan with the labels of each game.
    pub fn headed(self, heading: Heading) -> Plan
        ensures { result ≡ record self { heading = heading } }
    {
        Plan { heading, ..self }
    }

    /// The plan with what replaces Law 2, and whether deals are turned.
    pub fn with_setting(self, setting: Setting) -> Plan
        ensures { result ≡ record self { setting = setting } }
    {
        Plan { setting, ..self }
    }

    /// The plan with its candidates dealt around these cards.
    pub fn with_fixed(self, fixed: Fixed) -> Plan
        ensures { result ≡ record self { fixed = fixed } }
    {
        Plan { fixed, ..self }
    }

    /// The seed.
    pub fn seed(&self) -> u32
        ensures { result ≡ self.now.seed }
    {
        self.seed
    }

    /// The number of the first candidate.
    pub fn first(&self) -> u64
        ensures value { result ≡ self.now.first }
        ensures range { self.now.first + self.now.count ≤ 2 ^ 40 }
    {
        self.first
    }

    /// How many candidates are tried.
    pub fn count(&self) -> u64
        ensures value { result ≡ self.now.count }
        ensures range { self.now.first + self.now.count ≤ 2 ^ 40 }
    {
        self.count
    }

    /// How many workers judge the candidates.
    pub fn workers(&self) -> u32
        ensures value { result ≡ self.now.workers }
        ensures range { (0 < result) × (result ≤ 16) }
    {
        self.workers
    }

    /// How many verdicts a worker's lane holds.
    pub fn capacity(&self) -> u32
        ensures value { result ≡ self.now.capacity }
        ensures range { (0 < result) × (result ≤ 4096) }
    {
        self.capacity
    }

    /// The most boards that are written, at least 1; `None` without a limit.
    pub fn limit(&self) -> Option<u32>
        ensures value { result ≡ self.now.limit }
        ensures some { IfSome result (λ most. 0 < most) }
    {
        self.limit
    }

    /// The number of the first board.
    pub fn first_board(&self) -> u64
        ensures value { result ≡ self.now.first_board }
        ensures range { (0 < result) × (result ≤ 2 ^ 40) }
    {
        self.first_board
    }

    /// The labels of each game.
    pub fn heading(&self) -> &Heading
        ensures { result.now ≡ self.now.heading }
    {
        &self.heading
    }

    /// Who deals the boards, which sides are vulnerable, and whether deals are turned.
    pub fn setting(&self) -> &Setting
        ensures { result.now ≡ self.now.setting }
    {
        &self.setting
    }

    /// The cards that are fixed before the deals.
    pub fn fixed(&self) -> &Fixed
        ensures value { result.now ≡ self.now.fixed }
        ensures fixed { IsFixed self.now.fixed }
    {
        // It is asked for what its contract says: no seat has more than thirteen.
        let _free = self.fixed.free();
        &self.fixed
    }
}
