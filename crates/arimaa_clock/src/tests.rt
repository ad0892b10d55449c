//! Accounts of some time controls, turn after turn.
use super::*;
use arimaa_time::{Control, GameLimit, read_control};
use std::test::Fail;

/// The text of a control, and for each turn the milliseconds that it took and those in reserve
/// then, or nothing where it was out of time.
const TURNS: [(&str, &[(u64, Option<u64>)]); 8] = [
    (
        "0:30/5/100/5/8/4",
        &[
            (30_000, Some(300_000)),
            (30_001, Some(299_999)),
            (240_000, Some(89_999)),
            (119_999, Some(0)),
            (30_001, None),
            (30_000, Some(0)),
        ],
    ),
    (
        "0:30/5/100/5/8/4",
        &[(240_001, None), (240_000, Some(90_000))],
    ),
    ("0:30/5/100/5/8/0", &[(330_000, Some(0))]),
    ("0:30/5/100/5/8/0", &[(330_001, None), (330_000, Some(0))]),
    (
        "1/0/50/0:20",
        &[
            (29_999, Some(15_000)),
            (0, Some(20_000)),
            (60_000, Some(20_000)),
        ],
    ),
    (
        "1/5/100/4",
        &[
            (0, Some(300_000)),
            (120_000, Some(240_000)),
            (59_999, Some(240_000)),
        ],
    ),
    ("1/0/0", &[(0, Some(0))]),
    (
        "1/0",
        &[
            (0, Some(60_000)),
            (59_999, Some(60_001)),
            (120_002, None),
            (120_001, Some(0)),
        ],
    ),
];

#[test]
fn books_turns(rt: HostRuntime) -> Result<(), Fail> {
    for (text, turns) in &TURNS {
        let mut account = Account::new(&read_control(text.as_bytes())?);
        for (used, reserve) in turns.iter() {
            let before = account.reserve();
            let wanted = match reserve {
                Some(reserve) => Spend::Kept { reserve: *reserve },
                None => Spend::Out,
            };
            assert_eq!(rt; account.spend(*used), wanted, "{text}, {used}");
            assert_eq!(rt;
                account.reserve(),
                reserve.unwrap_or(before),
                "{text}, {used}"
            );
        }
    }
    Ok(())
}

/// No reserve grows above 2^60 milliseconds, and one that starts above it stays.
#[test]
fn ends_growth(rt: HostRuntime) {
    let most = 1_152_921_504_606_846_976;
    for (reserve, grown) in [(most - 7, most), (most, most), (most + 7, most + 7)] {
        let control = Control {
            turn: u64::MAX,
            reserve,
            percent: u8::MAX,
            cap: 0,
            game: GameLimit::None,
            limit: 0,
        };
        let mut account = Account::new(&control);
        assert_eq!(rt; account.spend(0), Spend::Kept { reserve: grown });
    }
}
