//! Letters that aren't small, and letters where lengths or ranks are wanted.

pub(crate) const RULES: &str = "
    In:cards Seat , ^ Card => name the suit by its word before the rank, as in cards(%b2,%p0)
    In:cards Except:( ^ CapitalRanks => in small letters write \"%m0\"
    ^ CapitalWord => in small letters write \"%m0\"
    In:shape|pattern Except:( ^ Named:order|orders => \
        for any order write \"pattern\", as in pattern(north,5-3-3-2)
    In:shape|pattern Except:( ^ Begins:x|X => put \"-\" between the lengths, as in 5-x-x-x
    In:shape|pattern Except:( ^ Word => for any length write \"x\"
    In:cards Except:( ^ Ranks => name each rank once, as in akq
";
