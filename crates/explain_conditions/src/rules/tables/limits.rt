//! Bounds in words, as `max 12` and `no more than 12`.

pub(crate) const RULES: &str = "
    Call ^ no more|greater|higher than Number => for this write: %v1<=%n3
    Call ^ no less|fewer|lower than Number => for this write: %v1>=%n3
    Call ^ is not Number => for this write: %v1!=%n2
    Call ^ is at least Number => for this write: %v1>=%n3
    Call ^ is at most Number => for this write: %v1<=%n3
    Call ^ max|maximum Number => for this write: %v1<=%n1
    Call ^ min|minimum Number => for this write: %v1>=%n1
    Call ^ over|above Number => for this write: %v1>%n1
    Call ^ under|below Number => for this write: %v1<%n1
    Call ^ up to Number => for this write: %v1<=%n2
    Call ^ from|within Number Any Number => for a range write: %v1 in %r3
    Call in ^ range Number - Number => leave \"range\" out
";
