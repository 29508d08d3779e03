//! Parameters against each other, by values worked out by hand.

use Listed::{Enumeration, Range};
use Param::{Between, Const, Member, Whole};
use compose::compatibility::{Span, meet, overlap, span_of};
use io_automata::Param;
use terms::{Listed, Scalar};

const FORMALS: [Scalar; 3] = [Scalar::Int(3), Scalar::Bool(true), Scalar::Member(3)];

const OTHERS: [Scalar; 3] = [
    Scalar::Int(i64::MAX),
    Scalar::Bool(false),
    Scalar::Member(4),
];

const FIRST_TWO: Param = Member(Range { low: 0, count: 2 });

const FIRST_FOUR: Param = Member(Range { low: 0, count: 4 });

const LATER_TWO: Param = Member(Range { low: 2, count: 2 });

// Parameters of the formals and of the others, and whether some value stands for both: a value against a type, a value against a value, and
// a type against a type.
const ROWS: [(Param, Param, bool); 20] = [
    (Const(0), FIRST_FOUR, true),
    (Const(0), Member(Range { low: 0, count: 3 }), false),
    (Const(0), Between(3, 3), true),
    (Const(0), Whole, true),
    (Const(0), Member(Enumeration { first: 0, count: 9 }), false),
    (Between(4, i64::MAX), Const(0), true),
    (Between(4, i64::MAX - 1), Const(0), false),
    (Const(1), Member(Listed::Bool), true),
    (Member(Enumeration { first: 0, count: 5 }), Const(2), true),
    (Member(Enumeration { first: 0, count: 4 }), Const(2), false),
    (Const(0), Const(0), false),
    (Const(1), Const(1), false),
    (Const(2), Const(2), false),
    (FIRST_TWO, LATER_TWO, false),
    (Member(Range { low: 0, count: 3 }), LATER_TWO, true),
    (FIRST_TWO, Whole, true),
    (Whole, Whole, true),
    (Whole, Member(Listed::Bool), false),
    (
        Member(Enumeration { first: 0, count: 3 }),
        Member(Enumeration { first: 3, count: 3 }),
        false,
    ),
    (
        Member(Enumeration {
            first: 65_000,
            count: 535,
        }),
        Member(Enumeration {
            first: 65_534,
            count: 1,
        }),
        true,
    ),
];

#[test]
fn parameters_have_values_in_common(rt: HostRuntime) {
    for (k, (param, other, wanted)) in ROWS.iter().enumerate() {
        let is_met = meet(span_of(&FORMALS, param), span_of(&OTHERS, other));
        assert!(rt; is_met == *wanted, "row {k}");
    }
    let member = span_of(&FORMALS, &Const(2));
    assert!(rt; meet(member, member) && !meet(member, Span::Numbers(3, 4)));
    assert!(rt; span_of(&FORMALS, &Const(0)) == Span::Numbers(3, 4));
    let pair = [Const(0), FIRST_TWO];
    assert!(rt; overlap(&FORMALS, &[], &OTHERS, &[]));
    assert!(rt; overlap(&FORMALS, &pair, &OTHERS, &[FIRST_FOUR, Whole]));
    assert!(rt; !overlap(&FORMALS, &pair, &OTHERS, &[FIRST_FOUR, LATER_TWO]));
    assert!(rt; !overlap(&FORMALS, &pair, &OTHERS, &[FIRST_FOUR]));
    assert!(rt; !overlap(&FORMALS, &[], &OTHERS, &pair));
}
