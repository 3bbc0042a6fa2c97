//! What the words of some command lines ask for: the definition of that, at examples.

ghost use Rattle.std.specs.Prelude.{◌≡◌, ◌∷◌, [], None, Some, codes, false, true};
ghost use Rattle.boards.specs.declared.setting.Vul.TheVariants.{NorthSouth};
ghost use Rattle.cards.specs.declared.seat.Seat.TheVariants.{South};
ghost use Rattle.clap.specs.declared.error.kind.ErrorKind.TheVariants.{InvalidValue};
ghost use Rattle.clap.specs.declared.error.kind.ErrorKind.TheVariants.{MissingRequiredArgument};
ghost use Rattle.clap.specs.declared.error.kind.ErrorKind.TheVariants.{UnknownArgument};
ghost use Rattle.clap.specs.declared.error.kind.ErrorKind.TheVariants.{ValueValidation};
ghost use Rattle.command_line.specs.CommandLine.{asked, kinds_for};
ghost use Rattle.requests.specs.PredealtHands.{none_given};
ghost use Rattle.requests.specs.Requests.{conditions, count, draw, make};
ghost use Rattle.requests.specs.Requests.{lessons, numbers_look, pick, show};
ghost use Rattle.requests.specs.Requests.{plain_look, plain_notices, plain_search, stream};
ghost use Rattle.requests.specs.Requests.{two_questions};
ghost use Rattle.boards.specs.declared.format.Format.TheVariants.{Hands};
ghost use Rattle.boards.specs.declared.show.Seats.TheVariants.{Dealer};
ghost use Rattle.boards.specs.Show.{all_shown};
ghost use Rattle.requests.specs.declared.workers.Workers.TheVariants as workers;
ghost use Rattle.requests.specs.declared.when.When.TheVariants.{Always, Auto, Never};
ghost use Rattle.boards.specs.declared.style.TableStyle.TheVariants.{Csv};

/// `deals stream --seed 0 --count 3` asks for the first three values of seed 0.
pub fn example_of_stream()
    ensures { asked
        (codes "deals" ∷ codes "stream" ∷ codes "--seed" ∷ codes "0"
        ∷ codes "--count" ∷ codes "3" ∷ [])
        ≡ Some (stream 0 3) }
{}

/// `deals make --seed 0 --candidates 200 --where 'hcp(north)>=15' --boards 5` asks for at most five
/// boards, of those among the first 200 candidates of seed 0 that meet the condition. What it does
/// not say has its default.
pub fn example_of_make()
    ensures { asked
        (codes "deals" ∷ codes "make" ∷ codes "--seed" ∷ codes "0"
        ∷ codes "--candidates" ∷ codes "200" ∷ codes "--where" ∷ codes "hcp(north)>=15"
        ∷ codes "--boards" ∷ codes "5" ∷ [])
        ≡ Some (make (record (plain_search 0) {
          candidates = Some 200;
          where_text = Some (codes "hcp(north)>=15");
          boards = Some 5;
        }) plain_look false plain_notices) }
{}

/// `deals make --seed 0 --boards 12 --format hands --dealer S --vulnerable NS --rotate` asks for
/// hand records of twelve boards with dealer South, each turned so that North's hand is South's.
/// A word that is none of its option's values is refused, in another case too.
pub fn example_of_formats()
    ensures asked { asked
        (codes "deals" ∷ codes "make" ∷ codes "--seed" ∷ codes "0"
        ∷ codes "--boards" ∷ codes "12" ∷ codes "--format" ∷ codes "hands"
        ∷ codes "--dealer" ∷ codes "S" ∷ codes "--vulnerable" ∷ codes "NS"
        ∷ codes "--rotate" ∷ [])
        ≡ Some (make (record (plain_search 0) { boards = Some 12 }) (record plain_look {
          format = Hands;
          dealer = Some South;
          vulnerable = Some NorthSouth;
          rotate = true;
        }) false plain_notices) }
    ensures refused { kinds_for
        (codes "deals" ∷ codes "make" ∷ codes "--seed" ∷ codes "0"
        ∷ codes "--boards" ∷ codes "12" ∷ codes "--format" ∷ codes "PBN" ∷ [])
        ≡ InvalidValue ∷ [] }
{}

/// `deals make --seed 0 --boards 12 --show dealer --tricks --workers auto` asks for the dealers'
/// hands of twelve boards, with tricks of which the input tells, by as many workers as suit the
/// machine. Another word for the workers is refused as clap refuses a number.
pub fn example_of_tricks()
    ensures asked { asked
        (codes "deals" ∷ codes "make" ∷ codes "--seed" ∷ codes "0"
        ∷ codes "--boards" ∷ codes "12" ∷ codes "--show" ∷ codes "dealer"
        ∷ codes "--tricks" ∷ codes "--workers" ∷ codes "auto" ∷ [])
        ≡ Some (make (record (plain_search 0) { boards = Some 12; workers = workers.Auto })
        (record plain_look { show = record all_shown { seats = Dealer } }) true plain_notices) }
    ensures refused { kinds_for
        (codes "deals" ∷ codes "make" ∷ codes "--seed" ∷ codes "0"
        ∷ codes "--boards" ∷ codes "12" ∷ codes "--workers" ∷ codes "many" ∷ [])
        ≡ ValueValidation ∷ [] }
{}

/// `deals lessons` asks for the list of all lessons.
pub fn example_of_lessons()
    ensures { asked (codes "deals" ∷ codes "lessons" ∷ []) ≡ Some (lessons None) }
{}

/// `deals pick --seed 2024 --north KQ432.A93.AJ.JT8 --south A985.KJ742.KQ32. --format hands` asks
/// for hand records of the candidates whose numbers the input gives, each with these hands for
/// North and South, the rest dealt to East and West.
pub fn example_of_hands()
    ensures { asked
        (codes "deals" ∷ codes "pick" ∷ codes "--seed" ∷ codes "2024"
        ∷ codes "--north" ∷ codes "KQ432.A93.AJ.JT8"
        ∷ codes "--south" ∷ codes "A985.KJ742.KQ32."
        ∷ codes "--format" ∷ codes "hands" ∷ [])
        ≡ Some (pick 2024 (record none_given {
          north = Some (codes "KQ432.A93.AJ.JT8");
          south = Some (codes "A985.KJ742.KQ32.");
        }) (record plain_look { format = Hands }) false Auto) }
{}

/// `deals pick --seed 7 --tricks` asks for the boards of the candidates whose numbers the input
/// gives, each with the tricks that its line tells.
pub fn example_of_picked()
    ensures { asked
        (codes "deals" ∷ codes "pick" ∷ codes "--seed" ∷ codes "7" ∷ codes "--tricks" ∷ [])
        ≡ Some (pick 7 none_given plain_look true Auto) }
{}

/// `deals show --format hands --show dealer --points hide --event Club` asks for hand records of
/// the boards that the input has, with the dealers' hands alone and without points. A seed is
/// refused, since nothing is dealt, and so is a word that means no format.
pub fn example_of_show()
    ensures asked { asked
        (codes "deals" ∷ codes "show" ∷ codes "--format" ∷ codes "hands"
        ∷ codes "--show" ∷ codes "dealer" ∷ codes "--points" ∷ codes "hide"
        ∷ codes "--event" ∷ codes "Club" ∷ [])
        ≡ Some (show (record plain_look {
          format = Hands;
          show = record { seats = Dealer; points = false };
          event = Some (codes "Club");
        }) Auto) }
    ensures seed { kinds_for
        (codes "deals" ∷ codes "show" ∷ codes "--seed" ∷ codes "7" ∷ [])
        ≡ UnknownArgument ∷ [] }
    ensures refused { kinds_for
        (codes "deals" ∷ codes "show" ∷ codes "--format" ∷ codes "dup" ∷ [])
        ≡ InvalidValue ∷ [] }
{}

/// `deals find --seed 7 --candidates 1000 --first 5 --where 'hcp(north)>=15' --progress never
/// --hints always` asks for the numbers of those of a thousand candidates, from number 5 on, that
/// meet the condition, over long lanes. A board of `find` has no number of its own.
pub fn example_of_find()
    ensures asked { asked
        (codes "deals" ∷ codes "find" ∷ codes "--seed" ∷ codes "7"
        ∷ codes "--candidates" ∷ codes "1000" ∷ codes "--first" ∷ codes "5"
        ∷ codes "--where" ∷ codes "hcp(north)>=15" ∷ codes "--progress" ∷ codes "never"
        ∷ codes "--hints" ∷ codes "always" ∷ [])
        ≡ Some (make (record (plain_search 7) {
          candidates = Some 1000;
          first = 5;
          lane = Some 4096;
          where_text = Some (codes "hcp(north)>=15");
        }) numbers_look false (record plain_notices { progress = Never; hints = Always })) }
    ensures refused { kinds_for
        (codes "deals" ∷ codes "find" ∷ codes "--seed" ∷ codes "7"
        ∷ codes "--candidates" ∷ codes "1000" ∷ codes "--first-board" ∷ codes "5" ∷ [])
        ≡ UnknownArgument ∷ [] }
{}

/// `deals count --seed 7 --candidates 800 --where 'hcp(south)>=18' --of 'hcp(south)' --by
/// 'second(south)' --format csv` asks for a table of two questions, over long lanes. One for the
/// columns alone is refused, and so is a format of boards.
pub fn example_of_count()
    ensures asked { asked
        (codes "deals" ∷ codes "count" ∷ codes "--seed" ∷ codes "7"
        ∷ codes "--candidates" ∷ codes "800" ∷ codes "--where" ∷ codes "hcp(south)>=18"
        ∷ codes "--of" ∷ codes "hcp(south)" ∷ codes "--by" ∷ codes "second(south)"
        ∷ codes "--format" ∷ codes "csv" ∷ [])
        ≡ Some (count (record (plain_search 7) {
          candidates = Some 800;
          lane = Some 4096;
          where_text = Some (codes "hcp(south)>=18");
        }) (two_questions (codes "hcp(south)") (codes "second(south)")) Csv plain_notices) }
    ensures alone { kinds_for
        (codes "deals" ∷ codes "count" ∷ codes "--seed" ∷ codes "7"
        ∷ codes "--candidates" ∷ codes "800" ∷ codes "--by" ∷ codes "second(south)" ∷ [])
        ≡ MissingRequiredArgument ∷ [] }
    ensures refused { kinds_for
        (codes "deals" ∷ codes "count" ∷ codes "--seed" ∷ codes "7"
        ∷ codes "--candidates" ∷ codes "800" ∷ codes "--format" ∷ codes "pbn" ∷ [])
        ≡ InvalidValue ∷ [] }
{}

/// `deals make -s 7 -n 12 -w 'hcp(north)>=15' -fhands` asks for the same as the words in full.
pub fn example_of_letters()
    ensures { asked
        (codes "deals" ∷ codes "make" ∷ codes "-s" ∷ codes "7" ∷ codes "-n" ∷ codes "12"
        ∷ codes "-w" ∷ codes "hcp(north)>=15" ∷ codes "-fhands" ∷ [])
        ≡ Some (make (record (plain_search 7) {
          boards = Some 12;
          where_text = Some (codes "hcp(north)>=15");
        }) (record plain_look { format = Hands }) false plain_notices) }
{}

/// `deals seed` asks for a seed that is drawn.
pub fn example_of_seed()
    ensures { asked (codes "deals" ∷ codes "seed" ∷ []) ≡ Some draw }
{}

/// `deals conditions` asks for the page of the language, and so does `deals help conditions`.
pub fn example_of_conditions()
    ensures page { asked (codes "deals" ∷ codes "conditions" ∷ []) ≡ Some conditions }
    ensures help { asked (codes "deals" ∷ codes "help" ∷ codes "conditions" ∷ [])
        ≡ Some conditions }
{}
