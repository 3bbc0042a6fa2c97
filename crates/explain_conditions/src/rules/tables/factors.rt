//! Numbers times what is counted.

pub(crate) const RULES: &str = "
    In:shape|pattern ^ * => for any length write \"x\"
    Count ^ * Number => write the number first, as in %n1*%b1(north)
    ) ^ * Number => write the number first, as in %n1*hcp(north)
    * ^ Nothing => name what is counted so many times, as in %b2*hcp(north)
    * ^ ( => give each value its number, as in 2*hcp(north)+2*hcp(south)
    * ^ Number => multiply the numbers yourself, as in 6*hcp(north)
    ^ * => a number is multiplied with what is counted, as in 2*hcp(north)
";
