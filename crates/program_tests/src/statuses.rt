//! Each status of a command that ends by itself, and what then stands in the output and on the error output.
use crate::asserting::{assert_items, assert_same, assert_same_at};
use crate::devices::{Broken, Narrow};
use crate::running::{has, ran};
use crate::words::words_of;
use program::run;
use std::io;
use std::io::ErrorKind;
use std::test::Fail;

/// A CONNECT.
const CONNECTED: &[u8] = b"100F00044D5154540502003C0000027731\n";

/// The answer to it: a CONNACK with Maximum QoS 1, no retained messages, Maximum Packet Size 65,536 and no subscription identifiers.
const CONNACK: &str = "200c000009240125002700010000\n";

/// A command, what it reads, and what it writes.
const COMMANDS: [(&str, &str, &str); 4] = [
    (
        "share_broker solo",
        "100F00044D5154540502003C0000027731\n",
        "200c000009240125002700010000\n",
    ),
    (
        "share_broker drive",
        "0 open 7\n0 bytes 7 100F00044D5154540502003C0000027731\n0 end 7\n",
        "7 200c000009240125002700010000\n7 close\n",
    ),
    (
        "share_broker solo --capacity 2 --group g:job",
        "\
100F00044D5154540502003C0000027731
320900036A6F6200070041
320900036A6F6200080042
320900036A6F6200090043
",
        "\
200c000009240125002700010000
40020007
40020008
4003000997
$share/g/job accepted 2 acknowledged 0 refused 0 held 0 queued 2 returned 0 discarded 0
",
    ),
    (
        "share_broker drive --capacity 2 --group g:job",
        "\
0 open 0
0 bytes 0 100F00044D5154540502003C0000027731
0 bytes 0 320900036A6F6200070041
0 bytes 0 320900036A6F6200080042
0 bytes 0 320900036A6F6200090043
0 end 0
",
        "\
0 200c000009240125002700010000
0 40020007
0 40020008
0 4003000997
0 close
$share/g/job accepted 2 acknowledged 0 refused 0 held 0 queued 2 returned 0 discarded 0
",
    ),
];

#[test]
fn commands_that_end(rt: HostRuntime) -> Result<(), Fail> {
    for (line, input, output) in COMMANDS.iter() {
        let ended = ran(&rt, rt.alloc(), line, &mut input.as_bytes())?;
        assert_same_at(&rt, &ended.status, &0, line);
        assert_eq!(rt; ended.output.as_slice(), output.as_bytes(), "{line}");
        assert_same_at(&rt, &ended.errors.len(), &0, line);
    }
    Ok(())
}

#[test]
fn texts_are_shown(rt: HostRuntime) -> Result<(), Fail> {
    let rows = [
        ("share_broker --help", "Usage: share_broker <COMMAND>"),
        ("share_broker --help", "\n  solo "),
        ("share_broker -h", "\n  drive "),
        ("share_broker -h", "\n  serve "),
        ("share_broker serve --help", "--port <P>"),
        ("share_broker help serve", "[default: 127.0.0.1]"),
        ("share_broker serve -h", "1 to 64 [default: 8]"),
        ("share_broker serve --help", "--until <WHEN>"),
        ("share_broker help serve", "[default: stdin]"),
        ("share_broker serve --help", "--drain <SECONDS>"),
        ("share_broker help serve", "0 to 86400 [default: 0]"),
        ("share_broker serve --help", "--metrics <PORT>"),
        ("share_broker serve --help", "--log <LEVEL>"),
        ("share_broker help serve", "[default: off]"),
        ("share_broker serve --help", "--max-expiry <SECONDS>"),
        ("share_broker help serve", "1 to 4294967295 seconds"),
        ("share_broker serve --help", "--max-keep-alive <SECONDS>"),
        ("share_broker help serve", "1 to 65535 seconds:"),
        ("share_broker serve --help", "--users <FILE>"),
        ("share_broker --help", "\n  hash-password "),
        ("share_broker hash-password --help", "<NAME>"),
        ("share_broker help hash-password", "1 to 1000000"),
        ("share_broker hash-password -h", "[default: 1000]"),
        ("share_broker drive --help", "1 to 65536 [default: 1024]"),
        ("share_broker solo --help", "1 to 256 [default: 256]"),
    ];
    for (line, text) in rows.iter() {
        let help = ran(&rt, rt.alloc(), line, &mut Broken)?;
        assert_same_at(&rt, &help.status, &0, line);
        assert_same_at(&rt, &has(&help.output, text), &true, line);
        assert_same_at(&rt, &help.errors.len(), &0, line);
    }
    let version = ran(&rt, rt.alloc(), "share_broker --version", &mut Broken)?;
    assert_same(&rt, &version.status, &0);
    assert_items(
        &rt,
        version.output.as_slice(),
        "share_broker 0.1.0\n".as_bytes(),
    );
    assert_same(&rt, &version.errors.len(), &0);
    Ok(())
}

#[test]
fn wrong_words(rt: HostRuntime) -> Result<(), Fail> {
    let rows = [
        ("share_broker serve", "--port <P>"),
        ("share_broker server", "unrecognized subcommand 'server'"),
        ("share_broker server", "'serve'"),
        (
            "share_broker drive --group job",
            "'job' for '--group <NAME:FILTER>': a group is NAME:FILTER",
        ),
        (
            "share_broker serve --port 0 --group a:1 --group g:job --group g:job",
            "'g:job' for '--group <NAME:FILTER>': the group is given twice",
        ),
        (
            "share_broker serve --port 0 --until stopped",
            "--until is stdin or killed",
        ),
        (
            "share_broker serve --port 0 --log loud",
            "--log is off, error, info or debug",
        ),
        (
            "share_broker serve --port 0 --drain 86401",
            "invalid value '86401'",
        ),
        (
            "share_broker serve --port 0 --metrics 65536",
            "invalid value '65536'",
        ),
        ("share_broker solo --capacity 0", "invalid value '0'"),
        (
            "share_broker hash-password a:b",
            "'a:b' for '<NAME>': a user's name has 1 to 128 bytes",
        ),
        (
            "share_broker hash-password a:b",
            "Usage: share_broker hash-password",
        ),
        (
            "share_broker hash-password a --iterations 0",
            "invalid value '0'",
        ),
    ];
    for (line, text) in rows.iter() {
        let mut reader = CONNECTED;
        let ended = ran(&rt, rt.alloc(), line, &mut reader)?;
        assert_same_at(&rt, &ended.status, &2, line);
        assert_same_at(&rt, &reader.len(), &CONNECTED.len(), line);
        assert_same_at(&rt, &ended.output.len(), &0, line);
        assert_same_at(&rt, &ended.errors.starts_with(b"error: "), &true, line);
        assert_same_at(&rt, &has(&ended.errors, text), &true, line);
    }
    Ok(())
}

/// Words that could not be read: one is no text, or memory was refused.
#[test]
fn no_words(rt: HostRuntime) -> Result<(), Fail> {
    let rows = [
        (
            ErrorKind::InvalidData,
            2,
            "error: a word is no UTF-8 text\n",
        ),
        (ErrorKind::OutOfMemory, 4, "memory\n"),
    ];
    for (kind, status, text) in rows.iter() {
        let mut output = Vec::new(rt.alloc());
        let mut errors = Vec::new(rt.alloc());
        let words = Err(io::Error::from(*kind));
        let exit = run(
            &rt,
            rt.alloc(),
            words,
            &mut Broken,
            &mut output,
            &mut errors,
        );
        assert_same(&rt, &exit.status, status);
        assert!(rt; exit.told.is_ok());
        assert_same(&rt, &output.len(), &0);
        assert_items(&rt, errors.as_slice(), text.as_bytes());
    }
    Ok(())
}

#[test]
fn reader_fails(rt: HostRuntime) -> Result<(), Fail> {
    let ended = ran(&rt, rt.alloc(), "share_broker solo", &mut Broken)?;
    assert_same(&rt, &ended.status, &3);
    assert_same(&rt, &ended.output.len(), &0);
    assert_items(&rt, ended.errors.as_slice(), "device\n".as_bytes());
    Ok(())
}

/// The output takes so much and then fails, of a command, and of a text that is shown, where no space is left.
#[test]
fn output_fails(rt: HostRuntime) -> Result<(), Fail> {
    for room in 0..CONNACK.len() {
        let mut output = Narrow {
            taken: Vec::new(rt.alloc()),
            room,
            kind: ErrorKind::BrokenPipe,
        };
        let mut errors = Vec::new(rt.alloc());
        let words = words_of(rt.alloc(), "share_broker solo")?;
        let exit = run(
            &rt,
            rt.alloc(),
            Ok(words),
            &mut &CONNECTED[..],
            &mut output,
            &mut errors,
        );
        assert_same(&rt, &exit.status, &3);
        assert_items(&rt, output.taken.as_slice(), &CONNACK.as_bytes()[..room]);
        assert_items(&rt, errors.as_slice(), "device\n".as_bytes());
    }
    let mut output = Narrow {
        taken: Vec::new(rt.alloc()),
        room: 12,
        kind: ErrorKind::StorageFull,
    };
    let mut errors = Vec::new(rt.alloc());
    let words = words_of(rt.alloc(), "share_broker --version")?;
    let exit = run(
        &rt,
        rt.alloc(),
        Ok(words),
        &mut Broken,
        &mut output,
        &mut errors,
    );
    assert_same(&rt, &exit.status, &3);
    assert_items(&rt, output.taken.as_slice(), "share_broker".as_bytes());
    assert_items(&rt, errors.as_slice(), "device: no space left\n".as_bytes());
    Ok(())
}

/// Where the error output fails, the status is still told.
#[test]
fn error_output_fails(rt: HostRuntime) -> Result<(), Fail> {
    let rows = [
        ("share_broker solo", 5, "input"),
        ("share_broker serve", 2, "error"),
    ];
    for (line, status, text) in rows.iter() {
        let mut output = Vec::new(rt.alloc());
        let mut errors = Narrow {
            taken: Vec::new(rt.alloc()),
            room: 5,
            kind: ErrorKind::BrokenPipe,
        };
        let words = words_of(rt.alloc(), line)?;
        let exit = run(
            &rt,
            rt.alloc(),
            Ok(words),
            &mut &b"0"[..],
            &mut output,
            &mut errors,
        );
        assert_same(&rt, &exit.status, status);
        assert!(rt; exit.told.is_err());
        assert_same(&rt, &output.len(), &0);
        assert_items(&rt, errors.taken.as_slice(), text.as_bytes());
    }
    Ok(())
}

#[test]
fn bad_line(rt: HostRuntime) -> Result<(), Fail> {
    let input: &[u8] = b"100F00044D5154540502003C0000027731\n\n0x\n";
    let ended = ran(&rt, rt.alloc(), "share_broker solo", &mut &input[..])?;
    assert_same(&rt, &ended.status, &5);
    assert_same(&rt, &ended.output.len(), &0);
    assert_items(&rt, ended.errors.as_slice(), "input line 3\n".as_bytes());
    let events: &[u8] = b"0 open 0\n0 open 64\n";
    let ended = ran(&rt, rt.alloc(), "share_broker drive", &mut &events[..])?;
    assert_same(&rt, &ended.status, &5);
    assert_same(&rt, &ended.output.len(), &0);
    assert_items(&rt, ended.errors.as_slice(), "input line 2\n".as_bytes());
    Ok(())
}
