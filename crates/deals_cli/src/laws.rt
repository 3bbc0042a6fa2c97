//! Laws of what requests mean: functions that do nothing, whose contracts are the laws.

ghost use Rattle.std.specs.Prelude.{◌≡◌, ◌+◌, ◌≤◌, ◌^◌, ◌++◌, ℕ, None};
ghost use Rattle.boards.specs.Headings.{HeadingView};
ghost use Rattle.boards.specs.Layouts.{EndsAlike, Layout};
ghost use Rattle.boards.specs.declared.setting.Setting.{Setting};
ghost use Rattle.cond_lang.specs.Form.{Form};
ghost use Rattle.dealrun.specs.Pbn.{text};
ghost use Rattle.notations.specs.Formats.{layout_of};
ghost use Rattle.notations.specs.Numbers.{numbers};
ghost use Rattle.boards.specs.declared.format.Format.{Format};
ghost use Rattle.boards.specs.declared.format.Format.TheVariants.{Pbn};
ghost use Rattle.input.specs.NumberTexts.{said};
ghost use Rattle.input.specs.Picked.{picked_text};
ghost use Rattle.boards.specs.Plans.{Planned};
ghost use Rattle.boards.specs.Text.{accepted, text_in};
ghost use Rattle.boards.specs.declared.style.TableStyle.TheVariants.{Csv};
ghost use Rattle.deals_cli.specs.Formats.{text_as};
ghost use Rattle.jobs.specs.Counting.{table_by};
ghost use Rattle.statistics.specs.Counting.{Subject};
ghost use Rattle.statistics.specs.Shards.{AddUp};

/// In the format `pbn` the text is that of the runs in Portable Bridge Notation.
pub fn pbn_is_the_text_of_a_run()
    ensures { (plan : Planned) (form : Form) → text_as Pbn plan form ≡ text plan form }
{}

/// Picking what was found is making: the numbers that a plan finds are read back as those of its
/// accepted candidates, and the text that is picked by them is the plan's own, in any layout whose
/// footer doesn't depend on how many candidates were tried, as in every format. Finding asks for no
/// setting and no first board.
pub fn picking_what_was_found_is_making()
    ensures read { (plan : Planned) (form : Form) → plan.first + plan.count ≤ 2 ^ 40
        → said (text_in numbers plan form)
        ≡ record { numbers = accepted plan form; refused = None } }
    ensures picked { (layout : Layout) (plan : Planned) (form : Form) (S : Setting) (B : ℕ)
        → EndsAlike layout → plan.first + plan.count ≤ 2 ^ 40
        → picked_text layout plan
        (said (text_in numbers (record plan { setting = S; first_board = B }) form))
        ≡ text_in layout plan form }
    ensures formats { (format : Format) (heading : HeadingView)
        → EndsAlike (layout_of format heading) }
{}

/// Without a limit, what a plan finds is what its first candidates find, and then the others: so
/// the texts of shards are joined in order.
pub fn shards_join()
    ensures { (plan : Planned) (form : Form) (m n : ℕ) → plan.limit ≡ None → plan.count ≡ m + n
        → text_in numbers plan form
        ≡ text_in numbers (record plan { count = m }) form
        ++ text_in numbers (record plan { first = plan.first + m; count = n }) form }
{}

/// Without a limit, the csv tables of shards add up line by line to the table of the whole.
pub fn tables_of_shards_add_up()
    ensures { (subject : Subject) (plan : Planned) (form : Form) (m n : ℕ)
        → plan.limit ≡ None → plan.count ≡ m + n
        → AddUp subject
        (table_by Csv subject (record plan { count = m }) form)
        (table_by Csv subject (record plan { first = plan.first + m; count = n }) form)
        (table_by Csv subject plan form) }
{}
