//! The plain form of Portable Bridge Notation: games written by hand. `tests/rows` asks the
//! built program for the same games, and for labels.

use crate::support::{deal_of, same};
use crate::written::{IN_ORDER, WORKED};
use boards::{Board, Notation, Vul};
use cards::Seat;
use pbn_text::{HEADER, Heading, Reference, deal_text, game};

/// A board, the hands of its deal, and its game.
const GAMES: [(u64, &[u8], &[u8]); 3] = [
    (1, IN_ORDER, FIRST),
    (2, WORKED, SECOND),
    (1, IN_ORDER, FIRST),
];

/// The game of the pack in order at board 1.
const FIRST: &[u8] = b"[Board \"1\"]\n[Dealer \"N\"]\n[Vulnerable \"None\"]\n\
    [Deal \"N:AKQJT98765432... .AKQJT98765432.. ..AKQJT98765432. ...AKQJT98765432\"]\n\n";

/// The game of the worked deal at board 2.
const SECOND: &[u8] = b"[Board \"2\"]\n[Dealer \"E\"]\n[Vulnerable \"NS\"]\n\
    [Deal \"N:.63.AKQ987.A9732 A8654.KQ5.T.QJT6 J973.J98742.3.K4 KQT2.AT.J6542.85\"]\n\n";

/// The pack in order as board 0, with another dealer and vulnerability than Law 2's.
const BY_HAND: &[u8] = b"[Board \"0\"]\n[Dealer \"W\"]\n[Vulnerable \"All\"]\n\
    [Deal \"N:AKQJT98765432... .AKQJT98765432.. ..AKQJT98765432. ...AKQJT98765432\"]\n\n";

#[test]
fn games_of_two_deals(rt: HostRuntime) {
    same(&rt, HEADER.as_slice(), b"% PBN 2.1\n".as_slice());
    for (number, hands, text) in GAMES.iter() {
        let deal = deal_of(&rt, hands);
        let game = game((*number).max(1), &Heading::none(), &deal);
        same(&rt, game.as_slice(), *text);
        let spelled = deal_text(&deal);
        assert!(rt; spelled.as_slice().starts_with(b"N:") && spelled.as_slice().ends_with(hands));
        same(&rt, spelled.len(), 69);
    }
}

#[test]
fn a_board_by_hand(rt: HostRuntime) {
    let mut reference = Reference::new(&Heading::none());
    reference.print(&Board {
        number: 0,
        candidate: 3,
        dealer: Seat::West,
        vulnerable: Vul::Both,
        deal: deal_of(&rt, IN_ORDER),
    });
    same(&rt, reference.text(), BY_HAND);
}
