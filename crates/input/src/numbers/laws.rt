//! A law of this crate's definitions: a function that does nothing, whose contract is the law.

ghost use Rattle.std.specs.Prelude.{◌≡◌, ◌<◌, ◌≤◌, ◌^◌, ◌++◌, ◌∷◌, [], ℕ, All, List, None};
ghost use Rattle.std.specs.Prelude.{decimal, flat_map, length};
ghost use Rattle.input.specs.NumberTexts.{said};

/// Numbers that are written in decimal, a line each, are read back. So are those of texts that were
/// joined, in order.
pub fn decimal_lines_are_read_back()
    ensures { (numbers : List ℕ) → All (λ n. n < 2 ^ 40) numbers → length numbers ≤ 2 ^ 40
        → said (flat_map (λ n. decimal n ++ 10 ∷ []) numbers)
        ≡ record { numbers = numbers; refused = None } }
{}
