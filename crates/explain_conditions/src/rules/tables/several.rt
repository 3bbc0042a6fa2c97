//! Several comparisons of a value, with the value before the first one alone.

pub(crate) const RULES: &str = "
    Relation Number ^ POINTS Except:( => leave \"%n0\" out
    Chained ^ Relation => a comparison has two sides: join two comparisons with \"and\"
    Relation Number and|or ^ Relation Number => to compare it twice write: %v4%b3%b2 %b1 %v4%n0%n1
    Relation Number or Number ^ or Number ENDS => \
        to compare it with each write: %v5%b4%b3 or %v5%b4%b1 or %v5%b4%n1
    ==|<|<= Number or Above ^ - Above Except:COUNTED => \
        to compare it twice write: %v5%b4%b3 or %v5 in %f1
    in Number - Number or Above ^ - Above Except:COUNTED => \
        to compare it with each write: %v7 in %b5-%b3 or %v7 in %f1
    != Number or Number ^ Except:COUNTED => for neither write: %v5!=%b3 and %v5!=%b1
    -|==|!=|<|<=|>|>= Number and|or Number ^ - Number Except:COUNTED => \
        a range needs a value before it, as in hcp(north) in %f1
    Relation Number and|or Number ^ Except:COUNTED => \
        to compare it twice write: %v5%b4%b3 %b2 %v5%b4%b1
";
