//! What `judge`, `show` and `prove` answer over records.
use crate::runs::{Row, check};
use arimaa_outside::Status;
use std::test::Fail;

// Bad records: each rule, in the order of the table of faults, by two records at least.
const BAD: [Row<'static>; 57] = [
    // a line after a bare one
    Row {
        words: "judge",
        input: "start 2g [       r                           E                    R       ]\n2g\n2g Ed4n\n",
        output: "bad 3 2g after\n",
        status: Status::Answered,
    },
    // a line of no form after a closing one
    Row {
        words: "judge",
        input: "1g resigns\nhello\n",
        output: "bad 2 1g after\n",
        status: Status::Answered,
    },
    // a second bare line
    Row {
        words: "judge",
        input: "1g\n1g\n",
        output: "bad 2 1g after\n",
        status: Status::Answered,
    },
    // a start line after a closing one
    Row {
        words: "judge",
        input: "1g time\nstart 2g [       r                           E                    R       ]\n",
        output: "bad 2 1g after\n",
        status: Status::Answered,
    },
    // no label
    Row {
        words: "judge",
        input: "hello\n",
        output: "bad 1 1g text\n",
        status: Status::Answered,
    },
    // a step and a closing word
    Row {
        words: "judge",
        input: "start 2g [       r                           E                    R       ]\n2g Ed4n resigns\n",
        output: "bad 2 2g text\n",
        status: Status::Answered,
    },
    // a label of ten digits
    Row {
        words: "judge",
        input: "1000000000g\n",
        output: "bad 1 1g text\n",
        status: Status::Answered,
    },
    // no turn has the number 0
    Row {
        words: "judge",
        input: "0g\n",
        output: "bad 1 1g text\n",
        status: Status::Answered,
    },
    // a zero before the number
    Row {
        words: "judge",
        input: "01g\n",
        output: "bad 1 1g text\n",
        status: Status::Answered,
    },
    // a second carriage return
    Row {
        words: "judge",
        input: "start 2g [       r                           E                    R       ]\n2g Ed4n\r\r\n",
        output: "bad 2 2g text\n",
        status: Status::Answered,
    },
    // a mark that follows no step
    Row {
        words: "judge",
        input: "start 2g [       r                           E                    R       ]\n# from here on\n2g cc3x Ed4n\n",
        output: "bad 3 2g text\n",
        status: Status::Answered,
    },
    // two marks after a step
    Row {
        words: "judge",
        input: "start 2g [       r                           E                    R       ]\n2g Ed4n Ed5x Ed5x\n",
        output: "bad 2 2g text\n",
        status: Status::Answered,
    },
    // a word that is no closing word
    Row {
        words: "judge",
        input: "start 2g [       r                           E                    R       ]\n2g resign\n",
        output: "bad 2 2g text\n",
        status: Status::Answered,
    },
    // a fifth step
    Row {
        words: "judge",
        input: "start 2g [       r                           Dc                   R       ]\n2g Ra1n Ra2n Ra3n ce4e Dd4e\n",
        output: "bad 2 2g steps\n",
        status: Status::Answered,
    },
    // a fifth step under another label
    Row {
        words: "judge",
        input: "9s Ra1n Ra2n Ra3n Ra4n Ra5n\n",
        output: "bad 1 1g steps\n",
        status: Status::Answered,
    },
    // a second start line
    Row {
        words: "judge",
        input: "start 2g [       r                           E                    R       ]\nstart 2g [       r                           E                    R       ]\n",
        output: "bad 2 2g form\n",
        status: Status::Answered,
    },
    // a start line after a setup, though its board is bad
    Row {
        words: "judge",
        input: "1g Ra1 Rb1 Rc1 Dd1 De1 Rf1 Rg1 Rh1 Ra2 Hb2 Cc2 Md2 Ee2 Cf2 Hg2 Rh2\nstart 2g [\n",
        output: "bad 2 1s form\n",
        status: Status::Answered,
    },
    // a turn before the setups
    Row {
        words: "judge",
        input: "1g Ra1n\n",
        output: "bad 1 1g form\n",
        status: Status::Answered,
    },
    // a setup after a start line
    Row {
        words: "judge",
        input: "start 2g [       r                           E                    R       ]\n2g Ra1 Rb1 Rc1 Dd1 De1 Rf1 Rg1 Rh1 Ra2 Hb2 Cc2 Md2 Ee2 Cf2 Hg2 Rh2\n",
        output: "bad 2 2g form\n",
        status: Status::Answered,
    },
    // a bad setup where a turn is due
    Row {
        words: "judge",
        input: "1g Ra1 Rb1 Rc1 Dd1 De1 Rf1 Rg1 Rh1 Ra2 Hb2 Cc2 Md2 Ee2 Cf2 Hg2 Rh2\n1s ra7 hb7 cc7 ed7 me7 cf7 hg7 rh7 ra8 rb8 rc8 dd8 de8 rf8 rg8 rh8\n2g Ra1\n",
        output: "bad 3 2g form\n",
        status: Status::Answered,
    },
    // a cat on a trap alone
    Row {
        words: "judge",
        input: "start 2g [       r                                  C             R       ]\n",
        output: "bad 1 1g start\n",
        status: Status::Answered,
    },
    // a start line without a board
    Row {
        words: "judge",
        input: "start 7s\n",
        output: "bad 1 1g start\n",
        status: Status::Answered,
    },
    // three camels
    Row {
        words: "judge",
        input: "start 2s [       r                           MMM                  R       ]\n",
        output: "bad 1 1g start\n",
        status: Status::Answered,
    },
    // a turn of number 2 at the beginning
    Row {
        words: "judge",
        input: "2g Ra1n\n",
        output: "bad 1 1g number\n",
        status: Status::Answered,
    },
    // the other side is to move
    Row {
        words: "judge",
        input: "start 2g [       r                           E                    R       ]\n2s rh8s\n",
        output: "bad 2 2g number\n",
        status: Status::Answered,
    },
    // a closing word for another turn
    Row {
        words: "judge",
        input: "2g resigns\n",
        output: "bad 1 1g number\n",
        status: Status::Answered,
    },
    // a bare line of another turn
    Row {
        words: "judge",
        input: "start 2g [       r                           E                    R       ]\n2s\n",
        output: "bad 2 2g number\n",
        status: Status::Answered,
    },
    // a bad setup of another label
    Row {
        words: "judge",
        input: "1g Ra1 Rb1 Rc1 Dd1 De1 Rf1 Rg1 Rh1 Ra2 Hb2 Cc2 Md2 Ee2 Cf2 Hg2 Rh2\n1g Ra1\n",
        output: "bad 2 1s number\n",
        status: Status::Answered,
    },
    // the side to move is immobile from the start
    Row {
        words: "judge",
        input: "start 2s [                        r       H                              R]\n2s ra5s\n",
        output: "bad 2 2s over\n",
        status: Status::Answered,
    },
    // nor may it give up
    Row {
        words: "judge",
        input: "start 2s [                        r       H                              R]\n2s resigns\n",
        output: "bad 2 2s over\n",
        status: Status::Answered,
    },
    // a turn after a goal
    Row {
        words: "judge",
        input: "start 2s [       rRc                                                      ]\n2s Ra7n cb7w\n3g Ra8s\n",
        output: "bad 3 3g over\n",
        status: Status::Answered,
    },
    // nine rabbits
    Row {
        words: "judge",
        input: "1g Ra1 Rb1 Rc1 Dd1 De1 Rf1 Rg1 Rh1 Ra2 Hb2 Rc2 Md2 Ee2 Cf2 Hg2 Rh2\n",
        output: "bad 1 1g setup\n",
        status: Status::Answered,
    },
    // one entry
    Row {
        words: "judge",
        input: "1g Ra1\n",
        output: "bad 1 1g setup\n",
        status: Status::Answered,
    },
    // Gold's setup for Silver
    Row {
        words: "judge",
        input: "1g Ra1 Rb1 Rc1 Dd1 De1 Rf1 Rg1 Rh1 Ra2 Hb2 Cc2 Md2 Ee2 Cf2 Hg2 Rh2\n1s Ra1 Rb1 Rc1 Dd1 De1 Rf1 Rg1 Rh1 Ra2 Hb2 Cc2 Md2 Ee2 Cf2 Hg2 Rh2\n",
        output: "bad 2 1s setup\n",
        status: Status::Answered,
    },
    // a square twice
    Row {
        words: "judge",
        input: "1g Ra1 Rb1 Rc1 Dd1 De1 Rf1 Rg1 Rh1 Ra2 Hb2 Cc2 Md2 Ee2 Cf2 Hg2 Rg1\n",
        output: "bad 1 1g setup\n",
        status: Status::Answered,
    },
    // another square
    Row {
        words: "judge",
        input: "start 2g [       r                           E                    R       ]\n2g Ee4n\n",
        output: "bad 2 2g piece\n",
        status: Status::Answered,
    },
    // another piece
    Row {
        words: "judge",
        input: "start 2g [       r                           E                    R       ]\n2g Ed4n Cd5n\n",
        output: "bad 2 2g piece\n",
        status: Status::Answered,
    },
    // off the board
    Row {
        words: "judge",
        input: "start 2g [       r                           E                    R       ]\n2g Ra1w\n",
        output: "bad 2 2g target\n",
        status: Status::Answered,
    },
    // onto a piece
    Row {
        words: "judge",
        input: "start 2g [       r                           E                    RR      ]\n2g Ra1e\n",
        output: "bad 2 2g target\n",
        status: Status::Answered,
    },
    // a push left open
    Row {
        words: "judge",
        input: "start 2g [       r                           Er                   R       ]\n2g re4e Ra1n\n",
        output: "bad 2 2g openpush\n",
        status: Status::Answered,
    },
    // the push not completed by the piece beside it
    Row {
        words: "judge",
        input: "start 2g [       r                   M       Er                   R       ]\n2g re4e Md5n\n",
        output: "bad 2 2g openpush\n",
        status: Status::Answered,
    },
    // the dog is frozen, so it pushes nothing
    Row {
        words: "judge",
        input: "start 2g [       r           h       Dc                           R       ]\n2g ce5e Dd5e\n",
        output: "bad 2 2g dislodge\n",
        status: Status::Answered,
    },
    // what ends a push begins no pull
    Row {
        words: "judge",
        input: "start 2g [       r                           Ec      d            R       ]\n2g ce4e Ed4e dd3n\n",
        output: "bad 2 2g dislodge\n",
        status: Status::Answered,
    },
    // a dog beside a horse
    Row {
        words: "judge",
        input: "start 2g [       r           h       D                            R       ]\n2g Dd5e\n",
        output: "bad 2 2g frozen\n",
        status: Status::Answered,
    },
    // a rabbit beside an elephant
    Row {
        words: "judge",
        input: "start 2g [        Re     r                   E                            ]\n2g Ra7n\n",
        output: "bad 2 2g frozen\n",
        status: Status::Answered,
    },
    // a gold rabbit goes south
    Row {
        words: "judge",
        input: "start 2g [       r                           E            R               ]\n2g Ra2s\n",
        output: "bad 2 2g rabbit\n",
        status: Status::Answered,
    },
    // a silver rabbit goes north
    Row {
        words: "judge",
        input: "start 2s [               r                   E            R               ]\n2s rh7n\n",
        output: "bad 2 2s rabbit\n",
        status: Status::Answered,
    },
    // the mark is missing
    Row {
        words: "judge",
        input: "start 2g [       r                                   Dc           R       ]\n2g Dd3w ce3w\n",
        output: "bad 2 2g mark\n",
        status: Status::Answered,
    },
    // the mark names another piece
    Row {
        words: "judge",
        input: "start 2g [       r                                   Dc           R       ]\n2g Dd3w Cc3x ce3w\n",
        output: "bad 2 2g mark\n",
        status: Status::Answered,
    },
    // nothing was removed
    Row {
        words: "judge",
        input: "start 2g [       r                           E                    R       ]\n2g Ed4n Ed5x\n",
        output: "bad 2 2g mark\n",
        status: Status::Answered,
    },
    // a mark before the end of a push that is never made
    Row {
        words: "judge",
        input: "start 2g [       r                           Er                   R       ]\n2g re4e re4x\n",
        output: "bad 2 2g mark\n",
        status: Status::Answered,
    },
    // the first half of a push ends the turn
    Row {
        words: "judge",
        input: "start 2g [       r                           Dc                   R       ]\n2g Ra1n Ra2n Ra3n ce4e\n",
        output: "bad 2 2g unfinished\n",
        status: Status::Answered,
    },
    // the first half of a push is all of the turn
    Row {
        words: "judge",
        input: "start 2g [       r                           Er                   R       ]\n2g re4e\n",
        output: "bad 2 2g unfinished\n",
        status: Status::Answered,
    },
    // there and back
    Row {
        words: "judge",
        input: "start 2g [       r                           E                    R       ]\n2g Ed4n Ed5s\n",
        output: "bad 2 2g same\n",
        status: Status::Answered,
    },
    // round a square
    Row {
        words: "judge",
        input: "start 2g [       r                           E                    R       ]\n2g Ed4n Ed5e Ee5s Ee4w\n",
        output: "bad 2 2g same\n",
        status: Status::Answered,
    },
    // the start position for the third time
    Row {
        words: "judge",
        input: "start 2g [       r   e                       E                    R       ]\n2g Ed4n\n2s ed7n\n3g Ed5s\n3s ed8s\n4g Ed4n\n4s ed7n\n5g Ed5s\n5s ed8s\n",
        output: "bad 9 5s repeat\n",
        status: Status::Answered,
    },
    // the same with Silver to move first
    Row {
        words: "judge",
        input: "start 2s [       r   e                       E                    R       ]\n2s ed7n\n3g Ed4n\n3s ed8s\n4g Ed5s\n4s ed7n\n5g Ed4n\n5s ed8s\n6g Ed5s\n",
        output: "bad 9 6g repeat\n",
        status: Status::Answered,
    },
];

// Lawful records: labels, turns that nearly break a rule, and each ending by two records at least.
const LAWFUL: [Row<'static>; 28] = [
    // no line at all
    Row {
        words: "judge",
        input: "",
        output: "lawful 0\nnext 1g\n",
        status: Status::Done,
    },
    // comments of any bytes, and blank lines
    Row {
        words: "judge",
        input: "# club\rgame \t\n\n \t\n#\n",
        output: "lawful 0\nnext 1g\n",
        status: Status::Done,
    },
    // Gold's setup alone
    Row {
        words: "judge",
        input: "1g Ra1 Rb1 Rc1 Dd1 De1 Rf1 Rg1 Rh1 Ra2 Hb2 Cc2 Md2 Ee2 Cf2 Hg2 Rh2\n",
        output: "lawful 0\nnext 1s\n",
        status: Status::Done,
    },
    // both setups, in any order, with older letters
    Row {
        words: "judge",
        input: "1w Rh2 Hg2 Cf2 Ee2 Md2 Cc2 Hb2 Ra2 Rh1 Rg1 Rf1 De1 Dd1 Rc1 Rb1 Ra1\r\n\t1b\tra7  hb7  cc7  ed7  me7  cf7  hg7  rh7  ra8  rb8  rc8  dd8  de8  rf8  rg8  rh8 \t",
        output: "lawful 0\nnext 2g\n",
        status: Status::Done,
    },
    // without the last line
    Row {
        words: "judge",
        input: "start 2g [       r   e                       E                    R       ]\n2g Ed4n\n2s ed7n\n3g Ed5s\n3s ed8s\n4g Ed4n\n4s ed7n\n5g Ed5s\n",
        output: "lawful 7\nnext 5s\n",
        status: Status::Done,
    },
    // one board four times, twice with each side to move
    Row {
        words: "judge",
        input: "start 2g [       r   e                       E                    R       ]\n2g Ed4n\n2s ed7n\n3g Ed5n\n3s ed8s\n4g Ed6s Ed5s\n4s ed7n\n5g Ed4n\n5s ed8w\n6g Ed5s\n6s ec8e ed8s\n7g Ed4n\n7s ed7n\n8g Ed5n\n8s ed8s\n9g Ed6s Ed5s\n",
        output: "lawful 15\nnext 9s\n",
        status: Status::Done,
    },
    // a pull completed though the puller was removed
    Row {
        words: "judge",
        input: "start 2g [       r                                   Dc           R       ]\n2g Dd3w Dc3x ce3w\n",
        output: "lawful 1\nnext 2s\n",
        status: Status::Done,
    },
    // two pulls, though the second step could begin a push
    Row {
        words: "judge",
        input: "start 2g [       r                           E       c       Hr   R       ]\n2g Ed4n cd3n Hd2n re2w\n",
        output: "lawful 1\nnext 2s\n",
        status: Status::Done,
    },
    // a bare line
    Row {
        words: "judge",
        input: "1g Ra1 Rb1 Rc1 Dd1 De1 Rf1 Rg1 Rh1 Ra2 Hb2 Cc2 Md2 Ee2 Cf2 Hg2 Rh2\n1s ra7 hb7 cc7 ed7 me7 cf7 hg7 rh7 ra8 rb8 rc8 dd8 de8 rf8 rg8 rh8\n2g\n",
        output: "lawful 0\nnext 2g\n",
        status: Status::Done,
    },
    // the last label stays due
    Row {
        words: "judge",
        input: "start 999999999s [       r                           E                    R       ]\n999999999s rh8s\n999999999s Ed4n\n",
        output: "lawful 2\nnext 999999999s\n",
        status: Status::Done,
    },
    // and the side to move gives up
    Row {
        words: "judge",
        input: "start 999999999s [       r                           E                    R       ]\n999999999s rh8s\n999999999s resigns\n",
        output: "lawful 1\nwinner silver resign\n",
        status: Status::Done,
    },
    // both last rabbits are removed: the side that moved has won
    Row {
        words: "judge",
        input: "start 2g [       e                                  RDr                   ]\n2g re3e rf3x Dd3e Rc3x\n",
        output: "lawful 1\nwinner gold elimination\n",
        status: Status::Done,
    },
    // Silver's only piece is removed
    Row {
        words: "judge",
        input: "start 2g [                   Er                                   R       ]\n2g re6e rf6x Ed6e\n",
        output: "lawful 1\nwinner gold elimination\n",
        status: Status::Done,
    },
    // Gold gives its last rabbit away
    Row {
        words: "judge",
        input: "start 2g [       r                               E          R             ]\n2g Rc2n Rc3x\n",
        output: "lawful 1\nwinner silver elimination\n",
        status: Status::Done,
    },
    // Silver pulls Gold's rabbit home
    Row {
        words: "judge",
        input: "start 2s [       rRc                                                      ]\n2s Ra7n cb7w\n",
        output: "lawful 1\nwinner gold goal\n",
        status: Status::Done,
    },
    // a rabbit goes home
    Row {
        words: "judge",
        input: "start 2g [        R      r                   E                            ]\n2g Ra7n\n",
        output: "lawful 1\nwinner gold goal\n",
        status: Status::Done,
    },
    // Gold pushes Silver's rabbit home
    Row {
        words: "judge",
        input: "start 2g [       r                                    E       r   R       ]\n2g re2s Ee3s\n",
        output: "lawful 1\nwinner silver goal\n",
        status: Status::Done,
    },
    // both are home: the side that moved has won
    Row {
        words: "judge",
        input: "start 2g [       rR                                   E       r           ]\n2g re2s Ee3s Ra7n\n",
        output: "lawful 1\nwinner gold goal\n",
        status: Status::Done,
    },
    // a goal in the middle of a turn is none
    Row {
        words: "judge",
        input: "start 2g [       r                                    E       r   R       ]\n2g re2s Ee3s Ee2w re1n\n",
        output: "lawful 1\nnext 2s\n",
        status: Status::Done,
    },
    // immobile from the start
    Row {
        words: "judge",
        input: "start 2s [                        r       H                              R]\n",
        output: "lawful 0\nwinner gold immobile\n",
        status: Status::Done,
    },
    // a bare line after the end
    Row {
        words: "judge",
        input: "start 2s [                        r       H                              R]\n2s\n",
        output: "lawful 0\nwinner gold immobile\n",
        status: Status::Done,
    },
    // frozen by a horse
    Row {
        words: "judge",
        input: "start 2g [                        r               H                      R]\n2g Ha3n\n",
        output: "lawful 1\nwinner gold immobile\n",
        status: Status::Done,
    },
    // Silver's only turn would be a third repetition
    Row {
        words: "judge",
        input: "start 2g [                         R      rH                              ]\n2g ra4n Hb4w Ha4e\n2s ra5s\n3g ra4n Hb4w Ha4e\n",
        output: "lawful 3\nwinner gold repetition\n",
        status: Status::Done,
    },
    // Gold's only turn would be a third repetition
    Row {
        words: "judge",
        input: "start 2s [                        Rh       r                              ]\n2s Ra5s hb5w ha5e\n3g Ra4n\n3s Ra5s hb5w ha5e\n",
        output: "lawful 3\nwinner silver repetition\n",
        status: Status::Done,
    },
    // a game as a club writes it
    Row {
        words: "judge",
        input: "# club game\r\n1w Ra1 Rb1 Rc1 Dd1 De1 Rf1 Rg1 Rh1 Ra2 Hb2 Cc2 Md2 Ee2 Cf2 Hg2 Rh2\r\n1b ra7 hb7 cc7 ed7 me7 cf7 hg7 rh7 ra8 rb8 rc8 dd8 de8 rf8 rg8 rh8\r\n2w Ee2n Ee3n Ee4n Hb2n\r\n2b ed7s ed6s ra7s ra6s\r\n3w Ee5n me7w Ee6n Hb3n\r\n3b resigns\r\n",
        output: "lawful 3\nwinner gold resign\n",
        status: Status::Done,
    },
    // Gold gives up before its setup
    Row {
        words: "judge",
        input: "1g resigns\n",
        output: "lawful 0\nwinner silver resign\n",
        status: Status::Done,
    },
    // Silver's time runs out before its setup
    Row {
        words: "judge",
        input: "1g Ra1 Rb1 Rc1 Dd1 De1 Rf1 Rg1 Rh1 Ra2 Hb2 Cc2 Md2 Ee2 Cf2 Hg2 Rh2\n1s time\n",
        output: "lawful 0\nwinner gold time\n",
        status: Status::Done,
    },
    // Gold's time runs out
    Row {
        words: "judge",
        input: "start 2g [       r                           E                    R       ]\n2g time\n",
        output: "lawful 0\nwinner silver time\n",
        status: Status::Done,
    },
];

// What is shown, and proved from the last position of a record.
const LAST_POSITIONS: [Row<'static>; 24] = [
    // an immobile rabbit
    Row {
        words: "show",
        input: "start 2s [                        r       H                              R]\n",
        output: "2s\n8 ........\n7 ........\n6 ..x..x..\n5 r.......\n4 H.......\n3 ..x..x..\n2 ........\n1 .......R\n  abcdefgh\nwinner gold immobile\n",
        status: Status::Done,
    },
    // no line at all
    Row {
        words: "show",
        input: "",
        output: "no position\n",
        status: Status::Answered,
    },
    // Gold's setup alone
    Row {
        words: "show",
        input: "1g Ra1 Rb1 Rc1 Dd1 De1 Rf1 Rg1 Rh1 Ra2 Hb2 Cc2 Md2 Ee2 Cf2 Hg2 Rh2\n",
        output: "no position\n",
        status: Status::Answered,
    },
    // closed before there is a position
    Row {
        words: "show",
        input: "1g resigns\n",
        output: "no position\n",
        status: Status::Answered,
    },
    // both setups
    Row {
        words: "show",
        input: "1g Ra1 Rb1 Rc1 Dd1 De1 Rf1 Rg1 Rh1 Ra2 Hb2 Cc2 Md2 Ee2 Cf2 Hg2 Rh2\n1s ra7 hb7 cc7 ed7 me7 cf7 hg7 rh7 ra8 rb8 rc8 dd8 de8 rf8 rg8 rh8\n",
        output: "2g\n8 rrrddrrr\n7 rhcemchr\n6 ..x..x..\n5 ........\n4 ........\n3 ..x..x..\n2 RHCMECHR\n1 RRRDDRRR\n  abcdefgh\nnext 2g\n",
        status: Status::Done,
    },
    // pieces on traps
    Row {
        words: "show",
        input: "start 7g [       r     e       d                    C       R     R       ]\n7g\n",
        output: "7g\n8 .......r\n7 .....e..\n6 ..x..d..\n5 ........\n4 ........\n3 ..C..x..\n2 ..R.....\n1 R.......\n  abcdefgh\nnext 7g\n",
        status: Status::Done,
    },
    // after a turn
    Row {
        words: "show",
        input: "start 2g [                         R      rH                              ]\n2g ra4n Hb4w Ha4e\n2s ra5s\n3g ra4n Hb4w Ha4e\n",
        output: "3s\n8 ........\n7 ........\n6 ..x..x..\n5 rR......\n4 .H......\n3 ..x..x..\n2 ........\n1 ........\n  abcdefgh\nwinner gold repetition\n",
        status: Status::Done,
    },
    // a bad record
    Row {
        words: "show",
        input: "1g Ra1 Rb1 Rc1 Dd1 De1 Rf1 Rg1 Rh1 Ra2 Hb2 Cc2 Md2 Ee2 Cf2 Hg2 Rh2\nhello\n",
        output: "bad 2 1s text\n",
        status: Status::Answered,
    },
    // the game has ended by a goal
    Row {
        words: "prove gold 0",
        input: "start 2s [       rRc                                                      ]\n2s Ra7n cb7w\n",
        output: "yes 0\nstrategy\n",
        status: Status::Done,
    },
    // immobile
    Row {
        words: "prove gold 0",
        input: "start 2s [                        r       H                              R]\n",
        output: "yes 0\nstrategy\n",
        status: Status::Done,
    },
    // each turn of Silver is a third repetition
    Row {
        words: "prove gold 0",
        input: "start 2g [                         R      rH                              ]\n2g ra4n Hb4w Ha4e\n2s ra5s\n3g ra4n Hb4w Ha4e\n",
        output: "yes 0\nstrategy\n",
        status: Status::Done,
    },
    // which Silver has not won
    Row {
        words: "prove silver 0",
        input: "start 2g [                         R      rH                              ]\n2g ra4n Hb4w Ha4e\n2s ra5s\n3g ra4n Hb4w Ha4e\n",
        output: "no\n",
        status: Status::Answered,
    },
    // without its history
    Row {
        words: "prove gold 0",
        input: "start 3s [                        rR       H                              ]\n",
        output: "no\n",
        status: Status::Answered,
    },
    // nor within one turn
    Row {
        words: "prove gold 1",
        input: "start 3s [                        rR       H                              ]\n",
        output: "no\n",
        status: Status::Answered,
    },
    // a goal after a turn of each side
    Row {
        words: "prove gold 1",
        input: "start 2g [               r        R          E                            ]\n2g Ra5n Ra6n\n2s rh7s\n",
        output: "yes 1\nstrategy\n1 [        R              r           E                            ] Ra7n\n",
        status: Status::Done,
    },
    // after a resignation
    Row {
        words: "prove gold 1",
        input: "# club game\r\n1w Ra1 Rb1 Rc1 Dd1 De1 Rf1 Rg1 Rh1 Ra2 Hb2 Cc2 Md2 Ee2 Cf2 Hg2 Rh2\r\n1b ra7 hb7 cc7 ed7 me7 cf7 hg7 rh7 ra8 rb8 rc8 dd8 de8 rf8 rg8 rh8\r\n2w Ee2n Ee3n Ee4n Hb2n\r\n2b ed7s ed6s ra7s ra6s\r\n3w Ee5n me7w Ee6n Hb3n\r\n3b resigns\r\n",
        output: "ended resign\n",
        status: Status::Answered,
    },
    // after the end of the time
    Row {
        words: "prove silver 0",
        input: "start 2g [       r                           E                    R       ]\n2g time\n",
        output: "ended time\n",
        status: Status::Answered,
    },
    // closed before there is a position
    Row {
        words: "prove gold 20",
        input: "1g resigns\n",
        output: "ended resign\n",
        status: Status::Answered,
    },
    // closed before there is a position
    Row {
        words: "prove gold 1",
        input: "1g resigns\n",
        output: "ended resign\n",
        status: Status::Answered,
    },
    // no line at all
    Row {
        words: "prove gold 1",
        input: "",
        output: "no position\n",
        status: Status::Answered,
    },
    // Gold's setup alone
    Row {
        words: "prove silver 0",
        input: "1g Ra1 Rb1 Rc1 Dd1 De1 Rf1 Rg1 Rh1 Ra2 Hb2 Cc2 Md2 Ee2 Cf2 Hg2 Rh2\n",
        output: "no position\n",
        status: Status::Answered,
    },
    // no label
    Row {
        words: "prove gold 1",
        input: "hello\n",
        output: "bad 1 1g text\n",
        status: Status::Answered,
    },
    // a fault after a closing word
    Row {
        words: "prove gold 1",
        input: "1g resigns\n1g\n",
        output: "bad 2 1g after\n",
        status: Status::Answered,
    },
    // both setups
    Row {
        words: "prove gold 0",
        input: "1g Ra1 Rb1 Rc1 Dd1 De1 Rf1 Rg1 Rh1 Ra2 Hb2 Cc2 Md2 Ee2 Cf2 Hg2 Rh2\n1s ra7 hb7 cc7 ed7 me7 cf7 hg7 rh7 ra8 rb8 rc8 dd8 de8 rf8 rg8 rh8\n",
        output: "no\n",
        status: Status::Answered,
    },
];

#[test]
fn bad_records(rt: HostRuntime) -> Result<(), Fail> {
    check(&rt, &BAD)
}

#[test]
fn lawful_records(rt: HostRuntime) -> Result<(), Fail> {
    check(&rt, &LAWFUL)
}

#[test]
fn last_positions(rt: HostRuntime) -> Result<(), Fail> {
    check(&rt, &LAST_POSITIONS)
}
