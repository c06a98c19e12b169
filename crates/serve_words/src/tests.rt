use crate::{ServeWords, WordsFault, read_words};
use std::alloc::Global;
use std::test::Fail;

fn words_of(alloc: Global, line: &str) -> Result<Vec<String>, Fail> {
    let mut words = Vec::new(alloc);
    for word in line.split(' ') {
        words.push(String::from_str(alloc, word)?)?;
    }
    Ok(words)
}

#[test]
fn words_are_read_or_refused(rt: HostRuntime) -> Result<(), Fail> {
    let alloc = rt.alloc();
    let asks = |port, commit_port, workers| {
        Ok(ServeWords {
            port,
            commit_port,
            workers,
        })
    };
    let table = [
        ("serve --port 8080 --commit-port 1", asks(8080, 1, 2)),
        (
            "serve --commit-port 65535 --workers 16 --port 7",
            asks(7, 65535, 16),
        ),
        (
            "serve --workers=3 --port=10 --commit-port=20",
            asks(10, 20, 3),
        ),
        ("serve --port 0 --commit-port 1", Err(WordsFault::Usage)),
        ("serve --port 1 --commit-port 65536", Err(WordsFault::Usage)),
        (
            "serve --port 1 --commit-port 2 --workers 17",
            Err(WordsFault::Usage),
        ),
        ("serve --port 1 --port 2", Err(WordsFault::Usage)),
        (
            "serve --port 1 --commit-port 2 --port 3",
            Err(WordsFault::Usage),
        ),
        ("serve --port 1", Err(WordsFault::Usage)),
        ("serve --help", Err(WordsFault::Usage)),
        ("serve", Err(WordsFault::Usage)),
        ("run --port 1 --commit-port 2", Err(WordsFault::Usage)),
    ];
    for (line, answer) in table {
        let words = words_of(alloc, line)?;
        assert_eq!(rt; read_words(alloc, words.as_slice()), answer);
    }
    Ok(())
}
