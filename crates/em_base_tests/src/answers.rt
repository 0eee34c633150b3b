//! The plain programs of the three definitions, each called once: the definitions' worked rows are
//! proved in em_model.
use em_model::{Command, map_answers_of, queue_answers_of, stab_answers_of};
use std::test::Fail;

#[test]
fn each_definition_answers_its_commands(rt: HostRuntime) -> Result<(), Fail> {
    let put = Command::Put { key: 5, value: 10 };
    let gotten = map_answers_of(
        rt.alloc(),
        &|x: u64, y: u64| x.wrapping_add(y),
        &[put, Command::Get { key: 5 }],
    )?;
    assert_eq!(rt;
        (gotten.len(), gotten.first().copied()),
        (1, Some(Some(10)))
    );
    let push = Command::Push { key: 9, value: 1 };
    let popped = queue_answers_of(rt.alloc(), &[push, Command::Pop])?;
    assert_eq!(rt;
        (popped.len(), popped.first().copied()),
        (1, Some(Some((9, 1))))
    );
    let interval = Command::Interval { low: 5, high: 9 };
    let stabbed = stab_answers_of(rt.alloc(), &[interval, Command::Stab { point: 9 }])?;
    assert_eq!(rt; stabbed.len(), 1);
    assert_eq!(rt; stabbed[0].as_slice(), [0].as_slice());
    Ok(())
}
