use statement::{Effect, Missing, Operation, Statement};
use std::test::Fail;

/// An operation, what its cell holds before, and what it leaves and answers.
#[derive(Clone, Copy)]
struct Case {
    operation: Operation,
    before: u64,
    value: u64,
    answer: u64,
}

const EFFECTS: [Case; 12] = [
    Case {
        operation: Operation::Get,
        before: 4,
        value: 4,
        answer: 4,
    },
    Case {
        operation: Operation::Set(9),
        before: 4,
        value: 9,
        answer: 4,
    },
    Case {
        operation: Operation::Add(1),
        before: 18446744073709551615,
        value: 0,
        answer: 0,
    },
    Case {
        operation: Operation::Take(5),
        before: 4,
        value: 4,
        answer: 0,
    },
    Case {
        operation: Operation::Take(4),
        before: 4,
        value: 0,
        answer: 1,
    },
    Case {
        operation: Operation::Join(63),
        before: 0,
        value: 9223372036854775808,
        answer: 1,
    },
    Case {
        operation: Operation::Join(63),
        before: 9223372036854775808,
        value: 9223372036854775808,
        answer: 0,
    },
    Case {
        operation: Operation::Leave(0),
        before: 11,
        value: 10,
        answer: 1,
    },
    Case {
        operation: Operation::Leave(2),
        before: 11,
        value: 11,
        answer: 0,
    },
    Case {
        operation: Operation::Heads,
        before: 11,
        value: 11,
        answer: 3,
    },
    Case {
        operation: Operation::Heads,
        before: 0,
        value: 0,
        answer: 0,
    },
    Case {
        operation: Operation::Heads,
        before: 18446744073709551615,
        value: 18446744073709551615,
        answer: 64,
    },
];

/// Whether the statement of a case leaves and answers what the case says.
fn is_right(case: Case) -> bool {
    let effect = Effect {
        value: case.value,
        answer: case.answer,
    };
    Statement::new(63, case.operation).is_ok_and(|statement| statement.apply(case.before) == effect)
}

#[test]
fn each_leaves_and_answers(rt: HostRuntime) {
    let right = EFFECTS.iter().filter(|&case| is_right(*case)).count();
    assert_eq!(rt; right, 12);
}

#[test]
fn numbers_outside_are_missing(rt: HostRuntime) {
    assert!(rt; Statement::new(63, Operation::Join(63)).is_ok());
    assert!(rt; Statement::new(0, Operation::Add(18446744073709551615)).is_ok());
    assert!(rt; Statement::new(64, Operation::Join(64)).err() == Some(Missing::Cell(64)));
    assert!(rt; Statement::new(63, Operation::Join(64)).err() == Some(Missing::Member(64)));
    assert_eq!(rt; Missing::Member(64).number(), 5);
}

#[test]
fn words_are_those_of_a_run_file(rt: HostRuntime) -> Result<(), Fail> {
    let add = Statement::new(5, Operation::Add(3))?;
    let text = format!(in rt.alloc(); "{add}")?;
    assert_eq!(rt; text.as_str(), "add 5 3");
    Ok(())
}
