//! `15+`, `15-`, one number after `in`, `not in`, and a difference.

pub(crate) const RULES: &str = "
    in|==|>=|> Number + ^ NoValue => for %b2 or more write: %v4>=%b2
    in|==|>=|> Number ^ + NoValue => for %b1 or more write: %v3>=%b1
    ^ = Number + NoValue => for %n1 or more write: %v1>=%n1
    Value ^ Number + NoValue => for %n0 or more write: %v1>=%n0
    STARTS Number Suffix:+ Count ( Seat ) ^ ENDS => for %b6 or more write: %b4(%b2)>=%b6
    STARTS Number Suffix:+ Count ( Seat , Any ) ^ ENDS => for %b8 or more write: %b6(%b4,%b2)>=%b8
    in Number - ^ Nothing => \
        a range has two ends, as in hcp(north) in 12-15; for %b2 or less write: %v4<=%b2
    in|==|<=|< Number - ^ NoValue => for %b2 or less write: %v4<=%b2
    in|==|<=|< Number ^ - NoValue => for %b1 or less write: %v3<=%b1
    ^ = Number - NoValue => for %n1 or less write: %v1<=%n1
    Value ^ Number - NoValue => for %n0 or less write: %v1<=%n0
    STARTS Number ^ Suffix:- Count ( Seat ) ENDS => for %b1 or less write: %n1(%n3)<=%b1

    in Number ^ ENDS => for one number write: %v3==%b1
    Call ^ Number => for one number write: %v1==%n0
    Value ^ not in Number Any Number => with \"not\" first write: not %v1%a1
    Value ^ not Number - Number => with \"not\" first write: not %v1%a1
    Call ^ not Relation Number => with \"not\" first write: not %v1%n1%n2
    Call ^ not Number => for another number write: %v1!=%n1
    Call ^ - Count ( Any ) Relation 0 ENDS => \
        there is no \"-\" of values, so write: %v1%n5%n1(%n3)
    Call ^ - Count ( Any ) Relation Number ENDS => \
        there is no \"-\" of values, so write: %v1%n5%n1(%n3)+%n6
    Call ^ - Count ( Any , Any ) Relation 0 ENDS => \
        there is no \"-\" of values, so write: %v1%n7%n1(%n3,%n5)
    Call ^ - Count ( Any , Any ) Relation Number ENDS => \
        there is no \"-\" of values, so write: %v1%n7%n1(%n3,%n5)+%n8
    Can:End Can:Relation Call ^ - Count => \
        there is no \"-\" of values: deals count --of takes one, and --by the other
    Value ^ - => there is no \"-\" of values: add to the other side, as in hcp(north)>=hcp(south)+5
";
