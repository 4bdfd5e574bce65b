// What words ask a server to do.
use lei_values::NoMemory;
use program_words::{Command, WordsFault, wanted_run};
use std::alloc::Global;
use std::test::Fail;

// The words of servers, with their ports, their workers, their connections and the paths of their stores.
const SERVERS: [(&str, u16, u32, u64, Option<&str>); 4] = [
    ("serve --port 0 --workers 1", 0, 1, 4_294_967_295, None),
    (
        "serve --workers=64 --port=65535",
        65_535,
        64,
        4_294_967_295,
        None,
    ),
    (
        "serve --store a --connections=4294967295 --workers 2 --port 80",
        80,
        2,
        4_294_967_295,
        Some("a"),
    ),
    (
        "serve --port 8080 --workers 1 --connections 1 --store=",
        8_080,
        1,
        1,
        Some(""),
    ),
];

// Words that aren't a command, one line each.
const OTHERS: &str = "serve
serve --port 0
serve --workers 1
serve --port 0 --workers 0
serve --port 0 --workers 65
serve --port 0 --workers 01
serve --port 65536 --workers 1
serve --port 080 --workers 1
serve --port +80 --workers 1
serve --port= --workers 1
serve --port 0 --port 0 --workers 1
serve --port 0 --workers 1 --connections 0
serve --port 0 --workers 1 --connections 4294967296
serve --port 0 --workers 1 8080
serve --port 0 --workers 1 --help
serve -- --port 0 --workers 1
Serve --port 0 --workers 1";

// The words of commands that read files, with the paths that become their first and their second file.
const FILES: [(&str, Option<&str>, Option<&str>); 4] = [
    ("apply lei csv a.csv b.csv", Some("a.csv"), Some("b.csv")),
    ("group ALL json a b", Some("a"), Some("b")),
    ("search csv a", None, Some("a")),
    ("mirror", None, None),
];

/// The words of a text, separated by spaces.
pub fn words_of(alloc: Global, text: &str) -> Result<Vec<String>, NoMemory> {
    let mut words = Vec::new(alloc);
    for word in text.split(' ') {
        words.push(String::from_str(alloc, word)?)?;
    }
    Ok(words)
}

fn is_server(
    alloc: Global,
    words: &[String],
    port: u16,
    workers: u32,
    connections: u64,
    store: Option<&str>,
) -> bool {
    match wanted_run(alloc, words) {
        Ok(run) => {
            matches!(run.command, Command::Serve)
                && run.port == port
                && run.workers == workers
                && run.connections == connections
                && run.store == store
        }
        Err(_) => false,
    }
}

fn is_refused(alloc: Global, words: &[String]) -> bool {
    matches!(wanted_run(alloc, words), Err(WordsFault::Usage))
}

#[test]
fn options_of_a_server_stand_in_any_order(rt: HostRuntime) -> Result<(), Fail> {
    for (text, port, workers, connections, store) in SERVERS {
        let words = words_of(rt.alloc(), text)?;
        assert!(rt;
            is_server(rt.alloc(), &words, port, workers, connections, store),
            "{text}"
        );
    }
    Ok(())
}

#[test]
fn other_words_are_no_server(rt: HostRuntime) -> Result<(), Fail> {
    for text in OTHERS.lines() {
        let words = words_of(rt.alloc(), text)?;
        assert!(rt; is_refused(rt.alloc(), &words), "{text}");
    }
    Ok(())
}

fn has_files(alloc: Global, words: &[String], first: Option<&str>, second: Option<&str>) -> bool {
    match wanted_run(alloc, words) {
        Ok(run) => run.first == first && run.second == second,
        Err(_) => false,
    }
}

#[test]
fn each_file_of_a_command_has_its_place(rt: HostRuntime) -> Result<(), Fail> {
    for (text, first, second) in FILES {
        let words = words_of(rt.alloc(), text)?;
        assert!(rt; has_files(rt.alloc(), &words, first, second), "{text}");
    }
    Ok(())
}
