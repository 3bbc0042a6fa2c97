//! Several numbers where a range or one number is wanted, and numbers that aren't whole.

pub(crate) const RULES: &str = "
    In:shape|pattern ^ . => put \"-\" between the lengths, as in 5-3-3-2
    in ^ (|[ Number , Follows , Follows )|] => for a range write: %v2 in %r5
    in ^ (|[ Number , Number , Number )|] => \
        to compare it with each write: %v2==%n1 or %v2==%n3 or %v2==%n5
    in ^ (|[ Number , Number , => a range is written by its two ends, as in hcp(north) in 15-17
    in ^ (|[ Number Any Number => for a range write: %v2 in %r3
    in ^ (|[ Number . . Number => for a range write: %v2 in %r4
    IN Number ^ , Follows , Follows ENDS => for a range write: %t2%v3 in %f3
    IN Number ^ , Number , => a range is written by its two ends, as in hcp(north) in 15-17
    =|== Digits:2 ^ , Digits:1 => every number is whole, as in hcp(north)>=12
    IN Number ^ , Above Except:COUNTED => for a range write: %t2%v3 in %f1
    >=|> Number ^ , Number ENDS => numbers are whole, so write: %v3>=%i1
    <=|< Number ^ , Number ENDS => numbers are whole, so write: %v3<=%b1
    IN Number ^ , Number Except:COUNTED => for a range write: %t2%v3 in %f1
    Relation Number ^ . 0|00 => numbers are whole, so write: %v3%b2%b1
    >=|> Number ^ . Number => numbers are whole, so write: %v3>=%i1
    <=|< Number ^ . Number => numbers are whole, so write: %v3<=%b1
    in Number ^ . Above Except:- => for a range write: %v3 in %f1
    Number ^ . Number => every number is whole, as in hcp(north)>=12
";
