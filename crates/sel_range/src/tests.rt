// Tests and numbers with their classes, worked by hand from the cuts: the first number of a test and the
// one behind its last, each counted once.
ghost use Rattle.std.specs.Prelude.{◌<◌, length};

use super::*;
use crate::limits::MOST_TESTS;
use sel_base::Range;
use std::test::Fail;

const LEAST: i64 = i64::MIN;

const GREATEST: i64 = i64::MAX;

// A number, its class, and the numbers of the tests that hold of it.
#[derive(Drop)]
struct Seen<'a> {
    number: Option<i64>,
    class: u16,
    passed: &'a [u16],
}

#[derive(Drop)]
struct Case<'a> {
    tests: &'a [Range],
    last: u16,
    // the classes up to 9 that occur
    occurring: &'a [u16],
    seen: &'a [Seen<'a>],
}

// Whether the test holds of the class of the number.
fn holds_of(classes: &Classes, number: Option<i64>, test: u16) -> bool
    requires { test < length classes.now }
{
    classes.holds(classes.class_of(number), test)
}

#[test]
fn numbers_fall_into_classes_by_the_cuts(rt: HostRuntime) -> Result<(), Fail> {
    let cases = [
        // three tests; cuts LEAST, -2048, 100, 2048
        Case {
            tests: &[
                Range {
                    lo: 100,
                    hi: GREATEST,
                },
                Range {
                    lo: LEAST,
                    hi: -2049,
                },
                Range {
                    lo: -2048,
                    hi: 2047,
                },
            ],
            last: 5,
            occurring: &[0, 2, 3, 4, 5],
            seen: &[
                Seen {
                    number: Some(-2048),
                    class: 3,
                    passed: &[2],
                },
                Seen {
                    number: Some(-2049),
                    class: 2,
                    passed: &[1],
                },
                Seen {
                    number: Some(GREATEST),
                    class: 5,
                    passed: &[0],
                },
                Seen {
                    number: Some(LEAST),
                    class: 2,
                    passed: &[1],
                },
                Seen {
                    number: Some(100),
                    class: 4,
                    passed: &[0, 2],
                },
                Seen {
                    number: Some(99),
                    class: 3,
                    passed: &[2],
                },
                Seen {
                    number: None,
                    class: 0,
                    passed: &[],
                },
                Seen {
                    number: Some(2047),
                    class: 4,
                    passed: &[0, 2],
                },
                Seen {
                    number: Some(2048),
                    class: 5,
                    passed: &[0],
                },
            ],
        },
        // no tests
        Case {
            tests: &[],
            last: 1,
            occurring: &[0, 1],
            seen: &[
                Seen {
                    number: Some(LEAST),
                    class: 1,
                    passed: &[],
                },
                Seen {
                    number: Some(0),
                    class: 1,
                    passed: &[],
                },
                Seen {
                    number: Some(GREATEST),
                    class: 1,
                    passed: &[],
                },
                Seen {
                    number: None,
                    class: 0,
                    passed: &[],
                },
            ],
        },
        // a test that never holds; no cuts
        Case {
            tests: &[Range { lo: 5, hi: 3 }],
            last: 1,
            occurring: &[0, 1],
            seen: &[
                Seen {
                    number: Some(3),
                    class: 1,
                    passed: &[],
                },
                Seen {
                    number: Some(4),
                    class: 1,
                    passed: &[],
                },
                Seen {
                    number: Some(5),
                    class: 1,
                    passed: &[],
                },
            ],
        },
        // one that never holds beside one number; cuts 4, 5
        Case {
            tests: &[Range { lo: 5, hi: 3 }, Range { lo: 4, hi: 4 }],
            last: 3,
            occurring: &[0, 1, 2, 3],
            seen: &[
                Seen {
                    number: Some(3),
                    class: 1,
                    passed: &[],
                },
                Seen {
                    number: Some(4),
                    class: 2,
                    passed: &[1],
                },
                Seen {
                    number: Some(5),
                    class: 3,
                    passed: &[],
                },
            ],
        },
        // the greatest number alone; cut GREATEST
        Case {
            tests: &[Range {
                lo: GREATEST,
                hi: GREATEST,
            }],
            last: 2,
            occurring: &[0, 1, 2],
            seen: &[
                Seen {
                    number: Some(GREATEST - 1),
                    class: 1,
                    passed: &[],
                },
                Seen {
                    number: Some(GREATEST),
                    class: 2,
                    passed: &[0],
                },
            ],
        },
        // all but the greatest number; cuts LEAST, GREATEST
        Case {
            tests: &[Range {
                lo: LEAST,
                hi: GREATEST - 1,
            }],
            last: 3,
            occurring: &[0, 2, 3],
            seen: &[
                Seen {
                    number: Some(LEAST),
                    class: 2,
                    passed: &[0],
                },
                Seen {
                    number: Some(GREATEST - 1),
                    class: 2,
                    passed: &[0],
                },
                Seen {
                    number: Some(GREATEST),
                    class: 3,
                    passed: &[],
                },
            ],
        },
        // all numbers; cut LEAST
        Case {
            tests: &[Range {
                lo: LEAST,
                hi: GREATEST,
            }],
            last: 2,
            occurring: &[0, 2],
            seen: &[
                Seen {
                    number: Some(LEAST),
                    class: 2,
                    passed: &[0],
                },
                Seen {
                    number: Some(GREATEST),
                    class: 2,
                    passed: &[0],
                },
                Seen {
                    number: None,
                    class: 0,
                    passed: &[],
                },
            ],
        },
        // the least number alone; cuts LEAST, LEAST + 1
        Case {
            tests: &[Range {
                lo: LEAST,
                hi: LEAST,
            }],
            last: 3,
            occurring: &[0, 2, 3],
            seen: &[
                Seen {
                    number: Some(LEAST),
                    class: 2,
                    passed: &[0],
                },
                Seen {
                    number: Some(LEAST + 1),
                    class: 3,
                    passed: &[],
                },
            ],
        },
        // equal cuts: 0, 10, 10, 20, 0, 20
        Case {
            tests: &[
                Range { lo: 0, hi: 9 },
                Range { lo: 10, hi: 19 },
                Range { lo: 0, hi: 19 },
            ],
            last: 4,
            occurring: &[0, 1, 2, 3, 4],
            seen: &[
                Seen {
                    number: Some(-1),
                    class: 1,
                    passed: &[],
                },
                Seen {
                    number: Some(0),
                    class: 2,
                    passed: &[0, 2],
                },
                Seen {
                    number: Some(9),
                    class: 2,
                    passed: &[0, 2],
                },
                Seen {
                    number: Some(10),
                    class: 3,
                    passed: &[1, 2],
                },
                Seen {
                    number: Some(19),
                    class: 3,
                    passed: &[1, 2],
                },
                Seen {
                    number: Some(20),
                    class: 4,
                    passed: &[],
                },
            ],
        },
        // neighbours; cuts 0, 1, 2
        Case {
            tests: &[Range { lo: 1, hi: 1 }, Range { lo: 0, hi: 0 }],
            last: 4,
            occurring: &[0, 1, 2, 3, 4],
            seen: &[
                Seen {
                    number: Some(-1),
                    class: 1,
                    passed: &[],
                },
                Seen {
                    number: Some(0),
                    class: 2,
                    passed: &[1],
                },
                Seen {
                    number: Some(1),
                    class: 3,
                    passed: &[0],
                },
                Seen {
                    number: Some(2),
                    class: 4,
                    passed: &[],
                },
            ],
        },
    ];
    for case in &cases {
        assert!(rt; case.tests.len() <= MOST_TESTS);
        let classes = Classes::of(rt.alloc(), case.tests)?;
        assert_eq!(rt; classes.tests(), case.tests);
        assert_eq!(rt; classes.last(), case.last);
        for class in 0..10 {
            assert_eq!(rt; classes.occurs(class), case.occurring.contains(&class));
        }
        for seen in case.seen {
            assert_eq!(rt; classes.class_of(seen.number), seen.class);
            for test in 0..classes.tests().len() {
                let test = test as u16;
                assert_eq!(rt;
                    holds_of(&classes, seen.number, test),
                    seen.passed.contains(&test)
                );
            }
        }
    }
    Ok(())
}
