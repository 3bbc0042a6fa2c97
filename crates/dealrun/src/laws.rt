//! Laws of this crate's definitions: functions that do nothing, whose contracts are the laws.

ghost use Rattle.std.specs.Prelude.{◌≡◌, ◌+◌, ℕ, List};
ghost use Rattle.boards.specs.Law2.{board_by_law};
ghost use Rattle.boards.specs.Layouts.{Layout};
ghost use Rattle.boards.specs.declared.setting.Setting.{Setting};
ghost use Rattle.cards.specs.Candidates.{candidate};
ghost use Rattle.cards.specs.declared.seat.Seat.{Seat};
ghost use Rattle.conditions.specs.Form.{Form};
ghost use Rattle.lanes.specs.Verdicts.{verdicts};
ghost use Rattle.boards.specs.Plans.{Planned, candidate_of};
ghost use Rattle.boards.specs.Text.{accepted, board_of, end_of, needed_by, text_in};
ghost use Rattle.lanes.specs.Jobs.{verdicts_for};
ghost use Rattle.dealrun.specs.Pbn.{text};
ghost use Rattle.pbn_text.specs.Games.{pbn};
ghost use Rattle.dealrun.specs.Plain.{IsPlain, plain_accepted, plain_text};

/// The text of a plan, in any layout and in PBN, and the candidates that it accepts, are the same
/// for every number of workers and every capacity of their lanes.
pub fn other_workers_write_the_same()
    ensures text_in { (layout : Layout) (plan : Planned) (form : Form) (W C : ℕ)
        → text_in layout (record plan { workers = W; capacity = C }) form
        ≡ text_in layout plan form }
    ensures text { (plan : Planned) (form : Form) (W C : ℕ)
        → text (record plan { workers = W; capacity = C }) form ≡ text plan form }
    ensures accepted { (plan : Planned) (form : Form) (W C : ℕ)
        → accepted (record plan { workers = W; capacity = C }) form ≡ accepted plan form }
{}

/// The condition is asked before a deal is turned: the candidates that a plan accepts, and how many
/// are needed, are the same for every setting of its boards.
pub fn other_settings_accept_the_same()
    ensures accepted { (plan : Planned) (form : Form) (other : Setting)
        → accepted (record plan { setting = other }) form ≡ accepted plan form }
    ensures needed { (plan : Planned) (form : Form) (other : Setting)
        → end_of (record plan { setting = other }) form ≡ end_of plan form }
{}

/// For a plan that fixes no card and leaves Law 2 in force, the deals, the boards, the accepted
/// candidates, how many are needed, the text and the workers' verdicts are those of the one
/// candidate sequence and of Law 2 alone.
pub fn a_plain_plan()
    ensures deals { (plan : Planned) (k : ℕ) → IsPlain plan
        → candidate_of plan k ≡ candidate plan.seed k }
    ensures boards { (plan : Planned) (n k : ℕ) (deal : List Seat) → IsPlain plan
        → board_of plan n k deal ≡ board_by_law (plan.first_board + n) k deal }
    ensures accepted { (plan : Planned) (form : Form) → IsPlain plan
        → accepted plan form ≡ plain_accepted plan form }
    ensures needed { (plan : Planned) (form : Form) → IsPlain plan
        → end_of plan form ≡ needed_by (candidate plan.seed) plan form }
    ensures text { (plan : Planned) (form : Form) → IsPlain plan
        → text_in (pbn plan.heading) plan form ≡ plain_text plan form }
    ensures verdicts { (plan : Planned) (form : Form) (w : ℕ) → IsPlain plan
        → verdicts_for plan form w
        ≡ verdicts (candidate plan.seed) plan.first plan.count form plan.workers w }
{}
