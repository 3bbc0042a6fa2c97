//! Laws of tables: functions that do nothing, whose contracts are the laws.

ghost use Rattle.std.specs.Prelude.{◌≡◌, ◌≤◌, ◌<◌, ◌+◌, ◌*◌, ◌^◌, ◌++◌, false, ℕ, List, codes, length, map};
ghost use Rattle.std.specs.Prelude.{sum};
ghost use Rattle.cards.specs.declared.seat.Seat.{Seat};
ghost use Rattle.conditions.specs.Questions.{Question, is_condition};
ghost use Rattle.statistics.specs.Answers.{answers_of, count_of, rows};
ghost use Rattle.statistics.specs.Columns.{commas};
ghost use Rattle.statistics.specs.Counting.{Subject, csv_text, pairs_of};
ghost use Rattle.statistics.specs.OneQuestion.{blocks, mean_text, row};
ghost use Rattle.statistics.specs.Rounded.{whole_root};
ghost use Rattle.statistics.specs.Sentence.{sentence};
ghost use Rattle.statistics.specs.Shards.{AddUp};
ghost use Rattle.statistics.specs.TwoQuestions.{cell, in_column, of_columns, of_rows};

/// A number is no wider than a greater one, so that the greatest of a column tells its width.
pub fn no_number_is_narrower()
    ensures { (m n : ℕ) → m ≤ n → n < 2 ^ 64 → length (commas m) ≤ length (commas n) }
{}

/// The whole square root is the greatest number whose square is not more.
pub fn roots_are_whole()
    ensures below { (n : ℕ) → whole_root n * whole_root n ≤ n }
    ensures above { (n : ℕ) → n < (whole_root n + 1) * (whole_root n + 1) }
{}

/// Some lines, as they are read.
pub fn lines_read()
    ensures sentence { sentence 176 3000 ≡ codes "176 of 3,000 deals: 5.867 %, one in 17" }
    ensures all { sentence 1 1 ≡ codes "1 of 1 deals: 100.000 %" }
    ensures none { sentence 0 0 ≡ codes "0 of 0 deals" }
    ensures row { row false 5 5 54 176 1 20
        ≡ codes "    1     20   11.36  " ++ blocks 15 ++ codes "\n" }
    ensures mean { mean_text 4 10 30 ≡ codes "mean 2.500, standard deviation 1.118" }
{}

/// The csv tables of two lists of deals add up to that of both, line by line.
pub fn tables_add_up()
    ensures { (subject : Subject) (deals more : List (List Seat)) (m n : ℕ)
        → AddUp subject (csv_text subject deals m) (csv_text subject more n)
        (csv_text subject (deals ++ more) (m + n)) }
{}

/// The rows of a table have all deals, each once.
pub fn rows_sum_to_all()
    ensures { (question : Question) (deals : List (List Seat))
        → let answers = answers_of question deals in
        sum (map (λ n. count_of n answers) (rows (is_condition question) answers))
        ≡ length deals }
{}

/// The cells of a row of two questions have all deals of the row, each once, and those of a column
/// all deals of the column.
pub fn cells_sum_to_all()
    ensures row { (of by : Question) (deals : List (List Seat)) (n : ℕ)
        → let pairs = pairs_of of by deals in
        sum (map (λ m. cell pairs n m) (rows (is_condition by) (of_columns pairs)))
        ≡ count_of n (of_rows pairs) }
    ensures column { (of by : Question) (deals : List (List Seat)) (m : ℕ)
        → let pairs = pairs_of of by deals in
        sum (map (λ n. cell pairs n m) (rows (is_condition of) (of_rows pairs)))
        ≡ length (in_column m pairs) }
{}
