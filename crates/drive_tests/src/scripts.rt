//! Scripts: lines that spell no event, and lines that are passed over.
use crate::acting::{assert_same, plain, written};
use drive::drive_lines;
use std::test::Fail;
use text_io::RunError;

#[test]
fn bad_lines(rt: HostRuntime) -> Result<(), Fail> {
    let bad: [(&str, u64); 14] = [
        ("1", 1),
        ("0 open 0\n0 open 64", 2),
        ("# a comment\n\n0 open", 3),
        ("0 opens 0", 1),
        ("0 open 0 0", 1),
        ("0  open 0", 1),
        ("0 open 0 ", 1),
        ("-1 open 0", 1),
        ("+1 open 0", 1),
        ("18446744073709551616 open 0", 1),
        ("0 bytes 0", 1),
        ("0 bytes 0 1", 1),
        ("0 bytes 0 0g", 1),
        ("0 close 0", 1),
    ];
    for (script, line) in bad.iter() {
        let ended = written(rt.alloc(), plain(rt.alloc()), script);
        assert_same(&rt, &ended, &Err(RunError::Line(*line)));
    }
    Ok(())
}

#[test]
fn good_lines(rt: HostRuntime) -> Result<(), Fail> {
    let good = [
        "",
        "\n\n",
        "#\n# 0 open 64\n",
        "18446744073709551615 open 63\n00 bytes 063 \n0 bytes 63 aAfF\n1 tick 63\n1 end 63\n1 close\n1 close",
    ];
    for script in good.iter() {
        let mut output = Vec::new(rt.alloc());
        assert_eq!(rt;
            drive_lines(
                rt.alloc(),
                plain(rt.alloc()),
                &mut script.as_bytes(),
                &mut output
            ),
            Ok(())
        );
    }
    Ok(())
}
