//! What a person says in plain words, or compares with true or false.

pub(crate) const RULES: &str = "
    balanced ( Seat ) ^ SAME true|True|TRUE|yes|1 => without a comparison write: balanced(%b2)
    balanced ( Seat ) SAME ^ true|True|TRUE|yes|1 => without a comparison write: balanced(%b3)
    balanced ( Seat ) ^ !=|<> false|False|FALSE|no|0 => without a comparison write: balanced(%b2)
    balanced ( Seat ) !=|<> ^ false|False|FALSE|no|0 => without a comparison write: balanced(%b3)
    balanced ( Seat ) ^ SAME false|False|FALSE|no|0 => without a comparison write: not balanced(%b2)
    balanced ( Seat ) SAME ^ false|False|FALSE|no|0 => without a comparison write: not balanced(%b3)
    balanced ( Seat ) ^ !=|<> true|True|TRUE|yes|1 => without a comparison write: not balanced(%b2)
    balanced ( Seat ) !=|<> ^ true|True|TRUE|yes|1 => without a comparison write: not balanced(%b3)

    Seat and|or Seat ^ HAS => \
        name one seat in each test, or add values up, as in hcp(%b3)+hcp(%b1)>=25
    Seat ^ HAS Counted Any or MORE => with the seat in brackets write: %k1(%b1%s1)>=%n1
    Seat ^ HAS Counted Any or FEWER => with the seat in brackets write: %k1(%b1%s1)<=%n1
    Seat ^ HAS Counted Any max|maximum => with the seat in brackets write: %k1(%b1%s1)<=%n1
    NotInCall Seat ^ : Number - Number POINTS ,|and balanced => \
        with the seat in brackets write: hcp(%b1)%a1 and balanced(%b1)
    NotInCall Seat ^ : Number + POINTS ,|and balanced => \
        with the seat in brackets write: hcp(%b1)>=%n1 and balanced(%b1)
    NotInCall Seat ^ : Number + POINTS Except:( => \
        with the seat in brackets write: hcp(%b1)>=%n1
    NotInCall Seat ^ : balanced => with the seat in brackets write: balanced(%b1)
    NotInCall Seat ^ : Card => with the seat in brackets write: cards(%b1,%p1)==1
    NotInCall Seat ^ : Counted => with the seat in brackets write: %k1(%b1%s1)%a1
    balanced ( Seat ) ^ plus => write \"and\"
    balanced ( Seat ^ , Amount => with a test for the points write: balanced(%b1) and hcp(%b1)%a1
    balanced ^ hand => say whose, as in balanced(north)
    Seat ^ HAS balanced => with the seat in brackets write: balanced(%b1)
    ^ Seat balanced => with the seat in brackets write: balanced(%n0)
    Seat ^ HAS unbalanced => with the seat in brackets write: not balanced(%b1)
    ^ Seat unbalanced => with the seat in brackets write: not balanced(%n0)
    Except:( Seat ^ HAS Counted => with the seat in brackets write: %k1(%b1%s1)%a1
    In: ^ Seat Counted => with the seat in brackets write: %k1(%n0%s1)%a1
";
