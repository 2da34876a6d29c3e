//! The words of `serve`, and what they ask for.
use crate::asserting::assert_text;
use crate::words::asked;
use std::alloc::Global;
use std::process::Abort;
use std::test::Fail;

/// Each line asks for what stands beside it.
fn assert_asked(rt: &impl Abort, alloc: Global, rows: &[(&str, &str)]) -> Result<(), Fail> {
    for (line, expected) in rows {
        let asked = asked(alloc, line)?;
        assert_text(rt, asked.as_str(), *expected);
    }
    Ok(())
}

#[test]
fn what_words_of_serve_ask_for(rt: HostRuntime) -> Result<(), Fail> {
    let rows = [
        (
            "share_broker serve --port 1883",
            "serve 127.0.0.1:1883 8 Stdin 0 0 Off 1024 256",
        ),
        (
            "share_broker serve --port 0 --workers 1",
            "serve 127.0.0.1:0 1 Stdin 0 0 Off 1024 256",
        ),
        (
            "share_broker serve --port 65535 --address 0.0.0.0 --workers 64 --capacity 65536 --group g:job --group h:#",
            "serve 0.0.0.0:65535 64 Stdin 0 0 Off 65536 256 $share/g/job $share/h/#",
        ),
        (
            "share_broker serve --address=192.168.1.255 --port=7 --capacity=1",
            "serve 192.168.1.255:7 8 Stdin 0 0 Off 1 256",
        ),
        (
            "share_broker serve --port 1 --max-inflight 256",
            "serve 127.0.0.1:1 8 Stdin 0 0 Off 1024 256",
        ),
        (
            "share_broker serve --max-inflight=2 --port 1 --group g:job",
            "serve 127.0.0.1:1 8 Stdin 0 0 Off 1024 2 $share/g/job",
        ),
        (
            "share_broker serve --port 1 --until stdin",
            "serve 127.0.0.1:1 8 Stdin 0 0 Off 1024 256",
        ),
        (
            "share_broker serve --until=killed --port 1 --workers 2 --group g:job",
            "serve 127.0.0.1:1 2 Killed 0 0 Off 1024 256 $share/g/job",
        ),
        (
            "share_broker serve --port 1 --drain 86400",
            "serve 127.0.0.1:1 8 Stdin 86400 0 Off 1024 256",
        ),
        (
            "share_broker serve --drain=60 --port 1 --until killed --group g:job",
            "serve 127.0.0.1:1 8 Killed 60 0 Off 1024 256 $share/g/job",
        ),
        (
            "share_broker serve --port 1 --metrics 65535",
            "serve 127.0.0.1:1 8 Stdin 0 65535 Off 1024 256",
        ),
        (
            "share_broker serve --metrics=9100 --port 1 --drain 60 --group g:job",
            "serve 127.0.0.1:1 8 Stdin 60 9100 Off 1024 256 $share/g/job",
        ),
        (
            "share_broker serve --port 1 --log off",
            "serve 127.0.0.1:1 8 Stdin 0 0 Off 1024 256",
        ),
        (
            "share_broker serve --port 1 --log error",
            "serve 127.0.0.1:1 8 Stdin 0 0 Error 1024 256",
        ),
        (
            "share_broker serve --log=info --port 1 --drain 60 --group g:job",
            "serve 127.0.0.1:1 8 Stdin 60 0 Info 1024 256 $share/g/job",
        ),
        (
            "share_broker serve --port 1 --log debug",
            "serve 127.0.0.1:1 8 Stdin 0 0 Debug 1024 256",
        ),
        (
            "share_broker serve --keep-parked --port 1 --group g:job",
            "serve 127.0.0.1:1 8 Stdin 0 0 Off kept 1024 256 $share/g/job",
        ),
        (
            "share_broker serve --declared-groups --port 1 --group g:job",
            "serve 127.0.0.1:1 8 Stdin 0 0 Off declared 1024 256 $share/g/job",
        ),
        (
            "share_broker serve --per-address 3 --port 1",
            "serve 127.0.0.1:1 8 Stdin 0 0 Off 3 each 1024 256",
        ),
        (
            "share_broker serve --port 1 --max-expiry 1",
            "serve 127.0.0.1:1 8 Stdin 0 0 Off expiry 1 1024 256",
        ),
        (
            "share_broker serve --port 1 --max-expiry 4294967295",
            "serve 127.0.0.1:1 8 Stdin 0 0 Off expiry 4294967295 1024 256",
        ),
        (
            "share_broker serve --max-keep-alive 1 --port 1",
            "serve 127.0.0.1:1 8 Stdin 0 0 Off alive 1 1024 256",
        ),
        (
            "share_broker serve --max-keep-alive=65535 --port 1 --max-expiry=3600 --max-inflight 2 --group g:job",
            "serve 127.0.0.1:1 8 Stdin 0 0 Off expiry 3600 alive 65535 1024 2 $share/g/job",
        ),
        (
            "share_broker serve --users /etc/share_broker/users --port 1",
            "serve 127.0.0.1:1 8 Stdin 0 0 Off users /etc/share_broker/users 1024 256",
        ),
        (
            "share_broker serve --port 1 --users=users --max-expiry 1 --group g:job",
            "serve 127.0.0.1:1 8 Stdin 0 0 Off expiry 1 users users 1024 256 $share/g/job",
        ),
        ("share_broker serve --port 1 --address localhost", "2"),
        ("share_broker serve --port 1 --address 1.2.3", "2"),
        ("share_broker serve --port 1 --address 1.2.3.256", "2"),
        ("share_broker serve --port 1 --address 1.2.3.04", "2"),
        ("share_broker serve --port 1 --until", "2"),
        ("share_broker serve --port 1 --until Stdin", "2"),
        ("share_broker serve --port 1 --until stopped", "2"),
        (
            "share_broker serve --port 1 --until killed --until killed",
            "2",
        ),
        ("share_broker drive --until killed", "2"),
        ("share_broker serve --port 1 --group job", "2"),
        (
            "share_broker serve --port 1 --group g:job --group g:job",
            "2",
        ),
        ("share_broker serve --port 1 job", "2"),
        ("share_broker serve --help", "0"),
        ("share_broker serve -h", "0"),
        ("share_broker help serve", "0"),
    ];
    assert_asked(&rt, rt.alloc(), &rows)
}

#[test]
fn faults_of_options(rt: HostRuntime) -> Result<(), Fail> {
    let rows = [
        ("share_broker serve", "2"),
        ("share_broker serve --port", "2"),
        ("share_broker serve --port 65536", "2"),
        ("share_broker serve --port -1", "2"),
        ("share_broker serve --port one", "2"),
        ("share_broker serve --port 1 --port 1", "2"),
        ("share_broker serve --port 1 --workers 0", "2"),
        ("share_broker serve --port 1 --workers 65", "2"),
        ("share_broker serve --port 1 --capacity 0", "2"),
        ("share_broker serve --port 1 --capacity 65537", "2"),
        ("share_broker serve --port 1 --max-inflight 0", "2"),
        ("share_broker serve --port 1 --max-inflight 257", "2"),
        ("share_broker serve --port 1 --drain", "2"),
        ("share_broker serve --port 1 --drain -1", "2"),
        ("share_broker serve --port 1 --drain 86401", "2"),
        ("share_broker serve --port 1 --drain 1m", "2"),
        ("share_broker serve --port 1 --drain 1 --drain 1", "2"),
        ("share_broker drive --drain 1", "2"),
        ("share_broker serve --port 1 --metrics", "2"),
        ("share_broker serve --port 1 --metrics -1", "2"),
        ("share_broker serve --port 1 --metrics 65536", "2"),
        ("share_broker serve --port 1 --metrics localhost:1", "2"),
        ("share_broker serve --port 1 --metrics 1 --metrics 1", "2"),
        ("share_broker drive --metrics 1", "2"),
        ("share_broker serve --port 1 --log", "2"),
        ("share_broker serve --port 1 --log Info", "2"),
        ("share_broker serve --port 1 --log warn", "2"),
        ("share_broker serve --port 1 --log info --log info", "2"),
        ("share_broker drive --log info", "2"),
        ("share_broker serve --port 1 --keep-parked yes", "2"),
        ("share_broker serve --port 1 --keep-parked=true", "2"),
        ("share_broker drive --keep-parked", "2"),
        ("share_broker serve --port 1 --declared-groups yes", "2"),
        ("share_broker drive --declared-groups", "2"),
        ("share_broker serve --port 1 --per-address -1", "2"),
        ("share_broker serve --port 1 --per-address 65536", "2"),
        ("share_broker solo --per-address 1", "2"),
        ("share_broker serve --port 1 --max-expiry", "2"),
        ("share_broker serve --port 1 --max-expiry 0", "2"),
        ("share_broker serve --port 1 --max-expiry -1", "2"),
        ("share_broker serve --port 1 --max-expiry 4294967296", "2"),
        ("share_broker serve --port 1 --max-expiry 1h", "2"),
        (
            "share_broker serve --port 1 --max-expiry 1 --max-expiry 1",
            "2",
        ),
        ("share_broker drive --max-expiry 1", "2"),
        ("share_broker serve --port 1 --max-keep-alive", "2"),
        ("share_broker serve --port 1 --max-keep-alive 0", "2"),
        ("share_broker serve --port 1 --max-keep-alive 65536", "2"),
        (
            "share_broker serve --port 1 --max-keep-alive 4294967295",
            "2",
        ),
        ("share_broker serve --port 1 --max-keep-alive never", "2"),
        (
            "share_broker serve --port 1 --max-keep-alive 1 --max-keep-alive 1",
            "2",
        ),
        ("share_broker solo --max-keep-alive 1", "2"),
        ("share_broker serve --port 1 --users", "2"),
        ("share_broker serve --port 1 --users a --users b", "2"),
        ("share_broker drive --users a", "2"),
    ];
    assert_asked(&rt, rt.alloc(), &rows)
}

#[test]
fn how_many_sessions_are_kept(rt: HostRuntime) -> Result<(), Fail> {
    assert_asked(
        &rt,
        rt.alloc(),
        &[
            (
                "share_broker serve --port 1 --sessions 1",
                "serve 127.0.0.1:1 8 Stdin 0 0 Off 1 sessions 1024 256",
            ),
            (
                "share_broker serve --sessions=65536 --port 1 --keep-parked",
                "serve 127.0.0.1:1 8 Stdin 0 0 Off 65536 sessions kept 1024 256",
            ),
            ("share_broker serve --port 1 --sessions 0", "2"),
            ("share_broker serve --port 1 --sessions 65537", "2"),
            ("share_broker drive --sessions 256", "2"),
        ],
    )
}
