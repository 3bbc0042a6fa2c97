//! The trees that texts spell, each of a clone of the condition.

use super::spelling::tree_text;
use super::*;

/// Texts, and their trees.
const TREES: [(&str, &str); 49] = [
    (
        "2*hcp(north)>=60",
        "Compare { left: Times(2, Total(hcp, North)), op: AtLeast, right: Number(60) }",
    ),
    (
        "1+0*cards(east,clubs,a)+3 in 4-5",
        "Within(Sum(Sum(Number(1), Times(0, SuitCards(East, Clubs, A))), Number(3)), 4, 5)",
    ),
    (
        "0==0",
        "Compare { left: Number(0), op: Equal, right: Number(0) }",
    ),
    (
        "15<=hcp(north)",
        "Compare { left: Number(15), op: AtMost, right: Total(hcp, North) }",
    ),
    (
        "0==0 or 1==1 and 2==2",
        "AnyOf(Compare { left: Number(0), op: Equal, right: Number(0) }, \
        AllOf(Compare { left: Number(1), op: Equal, right: Number(1) }, \
        Compare { left: Number(2), op: Equal, right: Number(2) }))",
    ),
    (
        "0==0 or 1==1 or 2==2",
        "AnyOf(AnyOf(Compare { left: Number(0), op: Equal, right: Number(0) }, \
        Compare { left: Number(1), op: Equal, right: Number(1) }), \
        Compare { left: Number(2), op: Equal, right: Number(2) })",
    ),
    (
        "not 0==0 and 1==1",
        "AllOf(Negation(Compare { left: Number(0), op: Equal, right: Number(0) }), \
        Compare { left: Number(1), op: Equal, right: Number(1) })",
    ),
    (
        "not (0==0 and 1==1)",
        "Negation(AllOf(Compare { left: Number(0), op: Equal, right: Number(0) }, \
        Compare { left: Number(1), op: Equal, right: Number(1) }))",
    ),
    (
        "pattern ( east , 5 - 4 - 3 - 1 )",
        "Pattern(East, [5, 4, 3, 1])",
    ),
    (
        "balanced(north) or balanced(east) and balanced(south)",
        "AnyOf(Balanced(North), AllOf(Balanced(East), Balanced(South)))",
    ),
    (
        "balanced(north) or balanced(east) or balanced(south)",
        "AnyOf(AnyOf(Balanced(North), Balanced(East)), Balanced(South))",
    ),
    (
        "not balanced(north) and balanced(east)",
        "AllOf(Negation(Balanced(North)), Balanced(East))",
    ),
    (
        "not (balanced(north) and balanced(east))",
        "Negation(AllOf(Balanced(North), Balanced(East)))",
    ),
    (
        "1+2+3==6",
        "Compare { left: Sum(Sum(Number(1), Number(2)), Number(3)), op: Equal, right: Number(6) }",
    ),
    (
        "hcp(north,spades)!=hcp(east,hearts)",
        "Compare { left: SuitTotal(hcp, North, Spades), op: NotEqual, \
        right: SuitTotal(hcp, East, Hearts) }",
    ),
    (
        "len(south,diamonds)<0015",
        "Compare { left: Length(South, Diamonds), op: Less, right: Number(15) }",
    ),
    (
        "len(west,clubs)>3and 4>=1",
        "AllOf(Compare { left: Length(West, Clubs), op: More, right: Number(3) }, \
        Compare { left: Number(4), op: AtLeast, right: Number(1) })",
    ),
    (
        "shape(west,1-2-3-7)\tor\n0==9999",
        "AnyOf(Shape(West, [1, 2, 3, 7]), \
        Compare { left: Number(0), op: Equal, right: Number(9999) })",
    ),
    (
        "controls(north)+hcp(north)>=4",
        "Compare { left: Sum(Total(controls, North), Total(hcp, North)), op: AtLeast, \
        right: Number(4) }",
    ),
    (
        "3==controls(east,hearts)",
        "Compare { left: Number(3), op: Equal, right: SuitTotal(controls, East, Hearts) }",
    ),
    ("1+2 in 3-4", "Within(Sum(Number(1), Number(2)), 3, 4)"),
    (
        "not 1 in 0-2 and 2==2",
        "AllOf(Negation(Within(Number(1), 0, 2)), \
        Compare { left: Number(2), op: Equal, right: Number(2) })",
    ),
    (
        "0 in 1-2 or 3 in 4-5 and 6 in 7-8",
        "AnyOf(Within(Number(0), 1, 2), AllOf(Within(Number(3), 4, 5), Within(Number(6), 7, 8)))",
    ),
    ("(losers(east) in 5-7)", "Within(Total(losers, East), 5, 7)"),
    (
        "15in10-20and 3==3",
        "AllOf(Within(Number(15), 10, 20), \
        Compare { left: Number(3), op: Equal, right: Number(3) })",
    ),
    (
        "longest(south)+1>shortest(north)",
        "Compare { left: Sum(Ordered(longest, South), Number(1)), op: More, \
        right: Ordered(shortest, North) }",
    ),
    (
        "cards(north,spades,kq)>=1",
        "Compare { left: SuitCards(North, Spades, KQ), op: AtLeast, right: Number(1) }",
    ),
    (
        "cards(north,ta)>=1",
        "Compare { left: Cards(North, AT), op: AtLeast, right: Number(1) }",
    ),
    ("shape(north,4-3-3-3)", "Shape(North, [4, 3, 3, 3])"),
    (
        "shape(north,4-x-3-3)",
        "LooseShape(North, [Length(4), Any, Length(3), Length(3)])",
    ),
    (
        "pattern(west,x-x-x-0)",
        "LoosePattern(West, [Any, Any, Any, Length(0)])",
    ),
    (
        "not (hcp(north)+len(south,clubs)+3>=15 or shape(east,4-4-3-2)) and pattern(west,4-3-3-3)",
        "AllOf(Negation(AnyOf(Compare { left: Sum(Sum(Total(hcp, North), Length(South, Clubs)), \
        Number(3)), op: AtLeast, right: Number(15) }, Shape(East, [4, 4, 3, 2]))), \
        Pattern(West, [4, 3, 3, 3]))",
    ),
    // Each suit of a class, in the place of its word.
    ("stops(north,hearts)", "Stops(North, Hearts)"),
    (
        "second(east)==5",
        "Compare { left: Ordered(second, East), op: Equal, right: Number(5) }",
    ),
    (
        "any major (stops(north,major))",
        "AnyOf(Stops(North, Spades), Stops(North, Hearts))",
    ),
    (
        "not every suit (stops(north,suit))",
        "Negation(AllOf(AllOf(AllOf(Stops(North, Spades), Stops(North, Hearts)), \
        Stops(North, Diamonds)), Stops(North, Clubs)))",
    ),
    (
        "any minor (stops(west,minor) and every other (stops(east,other)))",
        "AnyOf(AllOf(Stops(West, Diamonds), AllOf(AllOf(Stops(East, Spades), \
        Stops(East, Hearts)), Stops(East, Clubs))), \
        AllOf(Stops(West, Clubs), AllOf(AllOf(Stops(East, Spades), \
        Stops(East, Hearts)), Stops(East, Diamonds))))",
    ),
    // Each seat of a class, in the place of its word, and neighbours.
    (
        "any ns (stops(ns,hearts))",
        "AnyOf(Stops(North, Hearts), Stops(South, Hearts))",
    ),
    (
        "every ew (any major (stops(ew,major)))",
        "AllOf(AnyOf(Stops(East, Spades), Stops(East, Hearts)), \
        AnyOf(Stops(West, Spades), Stops(West, Hearts)))",
    ),
    ("stops(left(north),clubs)", "Stops(East, Clubs)"),
    (
        "any ns (stops(right(partner(ns)),clubs))",
        "AnyOf(Stops(East, Clubs), Stops(West, Clubs))",
    ),
    // Comments and ends of lines.
    ("1==1#2==2", ONE_IS_ONE),
    ("1#\n==1", ONE_IS_ONE),
    ("#\n1==1", ONE_IS_ONE),
    ("1==1 # 12345 %&/ \u{2660}", ONE_IS_ONE),
    ("1 # one\r\n== # is\r\n1 # one", ONE_IS_ONE),
    (
        "1==#a carriage return \r ends no comment, 2==2\n1",
        ONE_IS_ONE,
    ),
    (
        "hcp(north)\r\n==\r\n10",
        "Compare { left: Total(hcp, North), op: Equal, right: Number(10) }",
    ),
    (
        "\r10\r==\rhcp(north)\r",
        "Compare { left: Number(10), op: Equal, right: Total(hcp, North) }",
    ),
];

const ONE_IS_ONE: &str = "Compare { left: Number(1), op: Equal, right: Number(1) }";

#[test]
fn trees_of_texts(rt: HostRuntime) -> Result<(), Fail> {
    for (text, tree) in TREES.iter() {
        let spelled = tree_of(rt.alloc(), text)?;
        assert_eq!(rt; spelled.as_str(), *tree);
    }
    Ok(())
}

/// The tree of a text's condition, as text.
fn tree_of(alloc: Global, text: &str) -> Result<String, Fail> {
    tree_of_clone(alloc, &parse(alloc, text.as_bytes())?)
}

fn tree_of_clone(alloc: Global, cond: &Cond) -> Result<String, Fail> {
    spelled(alloc, &cond.try_clone()?)
}

fn spelled(alloc: Global, cond: &Cond) -> Result<String, Fail> {
    Ok(tree_text(alloc, cond.tree())?)
}
