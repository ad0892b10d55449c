//! What `judge`, `show` and `prove` answer over records in which turns are taken back.
use crate::runs::{Row, check};
use arimaa_outside::Status;
use std::test::Fail;

const TAKEBACKS: [Row<'static>; 35] = [
    // what was taken back is counted no more, and what stands is
    Row {
        words: "judge",
        input: "start 2g [       r   e                       E                    R       ]\n2g Ed4n\n2s ed7n\n3g Ed5s\n3s ed8s\n4g Ed4n\n4s ed7n\n5g Ed5s\n5s takeback\n5g Ed5s\n5s ed8s\n",
        output: "bad 11 5s repeat\n",
        status: Status::Answered,
    },
    // the turn that was taken back is played again
    Row {
        words: "judge",
        input: "start 2g [       r   e                       E                    R       ]\n2g Ed4n\n2s ed7n\n3g Ed5s\n3s ed8s\n4g Ed4n\n4s ed7n\n5g Ed5s\n5s takeback\n5g Ed5s\n",
        output: "lawful 7\nnext 5s\n",
        status: Status::Done,
    },
    // three times: a turn that does not stand is no repetition
    Row {
        words: "judge",
        input: "start 2g [       r   e                       E                    R       ]\n2g Ed4n\n2s ed7n\n3g Ed5s\n3s ed8s\n4g Ed4n\n4s takeback\n4g Ed4n\n4s takeback\n4g Ed4n\n4s ed7n\n5g Ed5s\n",
        output: "lawful 7\nnext 5s\n",
        status: Status::Done,
    },
    // the first turn
    Row {
        words: "judge",
        input: "start 2g [       r                           E                    R       ]\n2g Ed4n\n2s takeback\n",
        output: "lawful 0\nnext 2g\n",
        status: Status::Done,
    },
    // and a start line is not taken back
    Row {
        words: "judge",
        input: "start 2g [       r                           E                    R       ]\n2g Ed4n\n2s takeback\n2g takeback\n",
        output: "bad 4 2g takeback\n",
        status: Status::Answered,
    },
    // after an ending by the rules
    Row {
        words: "judge",
        input: "start 2g [                   Er                                   R       ]\n2g re6e rf6x Ed6e\n2s takeback\n",
        output: "bad 3 2s over\n",
        status: Status::Answered,
    },
    // after an ending by repetition
    Row {
        words: "judge",
        input: "start 2g [                         R      rH                              ]\n2g ra4n Hb4w Ha4e\n2s ra5s\n3g ra4n Hb4w Ha4e\n3s takeback\n",
        output: "bad 5 3s over\n",
        status: Status::Answered,
    },
    // at a start position that has ended the game
    Row {
        words: "judge",
        input: "start 2s [R              r                                                ]\n2s takeback\n",
        output: "bad 2 2s over\n",
        status: Status::Answered,
    },
    // before the setups
    Row {
        words: "judge",
        input: "1g takeback\n",
        output: "bad 1 1g takeback\n",
        status: Status::Answered,
    },
    // Gold's setup is not taken back
    Row {
        words: "judge",
        input: "1g Ra1 Rb1 Rc1 Dd1 De1 Rf1 Rg1 Rh1 Ra2 Hb2 Cc2 Md2 Ee2 Cf2 Hg2 Rh2\n1s takeback\n",
        output: "bad 2 1s takeback\n",
        status: Status::Answered,
    },
    // nor is Silver's
    Row {
        words: "judge",
        input: "1g Ra1 Rb1 Rc1 Dd1 De1 Rf1 Rg1 Rh1 Ra2 Hb2 Cc2 Md2 Ee2 Cf2 Hg2 Rh2\n1s ra7 hb7 cc7 ed7 me7 cf7 hg7 rh7 ra8 rb8 rc8 dd8 de8 rf8 rg8 rh8\n2g takeback\n",
        output: "bad 3 2g takeback\n",
        status: Status::Answered,
    },
    // the first turn after the setups
    Row {
        words: "judge",
        input: "1g Ra1 Rb1 Rc1 Dd1 De1 Rf1 Rg1 Rh1 Ra2 Hb2 Cc2 Md2 Ee2 Cf2 Hg2 Rh2\n1s ra7 hb7 cc7 ed7 me7 cf7 hg7 rh7 ra8 rb8 rc8 dd8 de8 rf8 rg8 rh8\n2g Ee2n\n2s takeback\n",
        output: "lawful 0\nnext 2g\n",
        status: Status::Done,
    },
    // a takeback after a takeback
    Row {
        words: "judge",
        input: "start 2g [       r   e                       E                    R       ]\n2g Ed4n\n2s ed7n\n3g takeback\n2s takeback\n",
        output: "lawful 0\nnext 2g\n",
        status: Status::Done,
    },
    // one more than there are turns
    Row {
        words: "judge",
        input: "start 2g [       r   e                       E                    R       ]\n2g Ed4n\n2s ed7n\n3g takeback\n2s takeback\n2g takeback\n",
        output: "bad 6 2g takeback\n",
        status: Status::Answered,
    },
    // with the label of the turn that is taken back
    Row {
        words: "judge",
        input: "start 2g [       r                           E                    R       ]\n2g Ed4n\n2g takeback\n",
        output: "bad 3 2s number\n",
        status: Status::Answered,
    },
    // with the label that was due before the takeback before
    Row {
        words: "judge",
        input: "start 2g [       r   e                       E                    R       ]\n2g Ed4n\n2s ed7n\n3g takeback\n3g takeback\n",
        output: "bad 5 2s number\n",
        status: Status::Answered,
    },
    // the label after a takeback is that of the turn that is gone
    Row {
        words: "judge",
        input: "start 2g [       r                           E                    R       ]\n2g Ed4n\n2s takeback\n2s rh8s\n",
        output: "bad 4 2g number\n",
        status: Status::Answered,
    },
    // another turn in its place
    Row {
        words: "judge",
        input: "start 2g [       r                           E                    R       ]\n2g Ed4n\n2s takeback\n2g Ed4e\n2s rh8s\n",
        output: "lawful 2\nnext 3g\n",
        status: Status::Done,
    },
    // a turn from where the piece no longer stands
    Row {
        words: "judge",
        input: "start 2g [       r                           E                    R       ]\n2g Ed4n\n2s takeback\n2g Ed5n\n",
        output: "bad 4 2g piece\n",
        status: Status::Answered,
    },
    // closed by a word afterwards
    Row {
        words: "judge",
        input: "start 2g [       r                           E                    R       ]\n2g Ed4n\n2s takeback\n2g resigns\n",
        output: "lawful 0\nwinner silver resign\n",
        status: Status::Done,
    },
    // closed by a label alone afterwards
    Row {
        words: "judge",
        input: "start 2g [       r                           E                    R       ]\n2g Ed4n\n2s takeback\n2g\n",
        output: "lawful 0\nnext 2g\n",
        status: Status::Done,
    },
    // after a closing word
    Row {
        words: "judge",
        input: "start 2g [       r                           E                    R       ]\n2g Ed4n\n2s resigns\n2s takeback\n",
        output: "bad 4 2s after\n",
        status: Status::Answered,
    },
    // after a label alone
    Row {
        words: "judge",
        input: "start 2g [       r                           E                    R       ]\n2g Ed4n\n2s\n2s takeback\n",
        output: "bad 4 2s after\n",
        status: Status::Answered,
    },
    // a word more
    Row {
        words: "judge",
        input: "start 2g [       r                           E                    R       ]\n2g Ed4n\n2s takeback now\n",
        output: "bad 3 2s text\n",
        status: Status::Answered,
    },
    // without a label
    Row {
        words: "judge",
        input: "start 2g [       r                           E                    R       ]\n2g Ed4n\ntakeback\n",
        output: "bad 3 2s text\n",
        status: Status::Answered,
    },
    // a capital letter
    Row {
        words: "judge",
        input: "start 2g [       r                           E                    R       ]\n2g Ed4n\n2s Takeback\n",
        output: "bad 3 2s text\n",
        status: Status::Answered,
    },
    // an older letter, blanks, and a comment between
    Row {
        words: "judge",
        input: "start 2g [       r                           E                    R       ]\n2g Ed4n\n# a slip\n \t2b\t takeback \r\n",
        output: "lawful 0\nnext 2g\n",
        status: Status::Done,
    },
    // the last label of all stays due after its own turn, and is that turn's
    Row {
        words: "judge",
        input: "start 999999999g [       r                           E                    R       ]\n999999999g Ed4n\n999999999s rh8s\n999999999s Ed5n\n999999999s takeback\n999999999s takeback\n",
        output: "lawful 1\nnext 999999999s\n",
        status: Status::Done,
    },
    // and the label before it comes back
    Row {
        words: "judge",
        input: "start 999999999g [       r                           E                    R       ]\n999999999g Ed4n\n999999999s rh8s\n999999999s Ed5n\n999999999s takeback\n999999999s takeback\n999999999s takeback\n",
        output: "lawful 0\nnext 999999999g\n",
        status: Status::Done,
    },
    // a start with the last label of all
    Row {
        words: "judge",
        input: "start 999999999s [       r                           E                    R       ]\n999999999s rh8s\n999999999s takeback\n999999999s takeback\n",
        output: "bad 4 999999999s takeback\n",
        status: Status::Answered,
    },
    // the ending by repetition comes once the positions stand
    Row {
        words: "judge",
        input: "start 2g [                         R      rH                              ]\n2g ra4n Hb4w Ha4e\n2s ra5s\n3g takeback\n2s ra5s\n3g ra4n Hb4w Ha4e\n",
        output: "lawful 3\nwinner gold repetition\n",
        status: Status::Done,
    },
    // Silver may go where a turn led that was taken back
    Row {
        words: "prove gold 0",
        input: "start 2g [                         R      rH                              ]\n2g ra4n Hb4w Ha4e\n2s ra5s\n3g takeback\n",
        output: "no\n",
        status: Status::Answered,
    },
    // and has lost where that turn stands
    Row {
        words: "prove gold 0",
        input: "start 2g [                         R      rH                              ]\n2g ra4n Hb4w Ha4e\n2s ra5s\n3g takeback\n2s ra5s\n3g ra4n Hb4w Ha4e\n",
        output: "yes 0\nstrategy\n",
        status: Status::Done,
    },
    // a fault of a takeback
    Row {
        words: "prove gold 1",
        input: "start 2g [       r                           E                    R       ]\n2g takeback\n",
        output: "bad 2 2g takeback\n",
        status: Status::Answered,
    },
    // the position that is present again
    Row {
        words: "show",
        input: "start 2g [                         R      rH                              ]\n2g ra4n Hb4w Ha4e\n2s takeback\n",
        output: "2g\n8 ........\n7 ........\n6 ..x..x..\n5 .R......\n4 rH......\n3 ..x..x..\n2 ........\n1 ........\n  abcdefgh\nnext 2g\n",
        status: Status::Done,
    },
];

#[test]
fn takebacks(rt: HostRuntime) -> Result<(), Fail> {
    check(&rt, &TAKEBACKS)
}
