// Rows and tables that are wrong, each of which has to be told.

/// Rows that can be read. In each something comes otherwise than it says: the status, a byte of a text, a text that is missing or too much,
/// or a count.
pub(crate) const DIFFERING: &str = r#"[
{"name": "another status", "words": ["crell", "fmt", "a.ll"], "files": {"a.ll": ""}, "status": 1, "stdout": "", "stderr": ""},
{"name": "another byte on out", "files": {"a.ll": "", "b.ll": "", "h.json": {"format": 1, "functions": {}}},
 "status": 0, "stdout": "valif\n", "stderr": ""},
{"name": "out without its end", "files": {"a.ll": "", "b.ll": "", "h.json": {"format": 1, "functions": {}}},
 "status": 0, "stdout": "valid", "stderr": ""},
{"name": "nothing on out", "files": {"a.ll": "", "b.ll": "", "h.json": {"format": 1, "functions": {}}}, "status": 0, "stdout": "", "stderr": ""},
{"name": "something on out", "words": ["crell", "fmt", "a.ll"], "files": {"a.ll": ""}, "status": 0, "stdout": "\n", "stderr": ""},
{"name": "nothing on err", "status": 10, "stdout": "", "stderr": ""},
{"name": "another name on err", "status": 10, "stdout": "", "stderr": "b.ll: absent\n"},
{"name": "something on err", "words": ["crell", "fmt", "a.ll"], "files": {"a.ll": ""}, "status": 0, "stdout": "", "stderr": "a.ll: absent\n"},
{"name": "a fault too many", "status": 10, "stdout": "", "stderr": "a.ll: absent\n", "faults": 1},
{"name": "a fault too few", "words": ["crell", "fmt", "a.ll"], "files": {"a.ll": ""}, "failing_gets": [0],
 "status": 6, "stdout": "", "stderr": "a.ll: read failed\n", "faults": 0},
{"name": "a byte that wasn't taken", "words": ["crell", "fmt", "a.ll"], "files": {"a.ll": ""}, "status": 0, "stdout": "", "stderr": "", "taken": 1},
{"name": "a file that isn't empty", "words": ["crell", "fmt", "a.ll"], "files": {"a.ll": [32]}, "status": 0, "stdout": "", "stderr": "", "taken": 0},
{"name": "a sink with room", "words": ["crell", "fmt", "a.ll"], "files": {"a.ll": "%a = type opaque"}, "out": {"room": 17},
 "status": 7, "stdout": "", "stderr": "stdout: write failed\n"},
{"name": "a sink without room", "words": ["crell", "fmt", "a.ll"], "files": {"a.ll": "%a = type opaque"}, "out": {"room": 16},
 "status": 0, "stdout": "%a = type opaque\n", "stderr": ""}
]"#;

/// Rows that aren't as a row must be.
pub(crate) const UNLIKE: &str = r#"[
7,
[],
{"status": 2, "stdout": "", "stderr": ""},
{"name": 7, "status": 10, "stdout": "", "stderr": "a.ll: absent\n"},
{"name": "no status", "stdout": "", "stderr": "a.ll: absent\n"},
{"name": "no out", "status": 10, "stderr": "a.ll: absent\n"},
{"name": "no err", "status": 10, "stdout": ""},
{"name": "a status above 255", "status": 266, "stdout": "", "stderr": "a.ll: absent\n"},
{"name": "a status that is a text", "status": "10", "stdout": "", "stderr": "a.ll: absent\n"},
{"name": "a member that isn't known", "status": 10, "stdout": "", "stderr": "a.ll: absent\n", "absent": ["a.ll"]},
{"name": "words that are no list", "words": "crell check a.ll b.ll h.json", "status": 10, "stdout": "", "stderr": "a.ll: absent\n"},
{"name": "a word that is no text", "words": ["crell", "fmt", 7], "status": 10, "stdout": "", "stderr": "a.ll: absent\n"},
{"name": "files that are a list", "files": ["a.ll"], "status": 10, "stdout": "", "stderr": "a.ll: absent\n"},
{"name": "a file that is a number", "files": {"b.ll": 7}, "status": 10, "stdout": "", "stderr": "a.ll: absent\n"},
{"name": "a byte above 255", "files": {"b.ll": [256]}, "status": 10, "stdout": "", "stderr": "a.ll: absent\n"},
{"name": "a repeated text without times", "files": {"b.ll": [{"text": "a"}]}, "status": 10, "stdout": "", "stderr": "a.ll: absent\n"},
{"name": "a repeated text that is a number", "files": {"b.ll": [{"text": 1, "times": 1}]}, "status": 10, "stdout": "", "stderr": "a.ll: absent\n"},
{"name": "a part of a repeated text that isn't known", "files": {"b.ll": [{"text": "a", "times": 1, "from": 1}]},
 "status": 10, "stdout": "", "stderr": "a.ll: absent\n"},
{"name": "a plan that is a number", "out": 7, "status": 10, "stdout": "", "stderr": "a.ll: absent\n"},
{"name": "a part of a plan that isn't known", "out": {"space": 7}, "status": 10, "stdout": "", "stderr": "a.ll: absent\n"},
{"name": "a sink that takes nothing a call", "out": {"most": 0}, "status": 10, "stdout": "", "stderr": "a.ll: absent\n"},
{"name": "calls that are no list", "failing_gets": 0, "status": 10, "stdout": "", "stderr": "a.ll: absent\n"},
{"name": "a call before the first", "failing_gets": [-1], "status": 10, "stdout": "", "stderr": "a.ll: absent\n"},
{"name": "half a fault", "status": 10, "stdout": "", "stderr": "a.ll: absent\n", "faults": 0.5}
]"#;

/// Texts that are no table.
pub(crate) const NO_TABLES: [&str; 6] = [
    "",
    "{}",
    "[",
    "[{\"name\": \"a\", \"status\": 0, \"stdout\": \"\", \"stderr\": \"\"},]",
    "[{\"name\": \"a\", \"status\": 1, \"status\": 2, \"stdout\": \"\", \"stderr\": \"\"}]",
    "[{\"name\": \"a\", \"files\": {\"a.ll\": \"\", \"a.ll\": \"\"}, \"status\": 2, \"stdout\": \"\", \"stderr\": \"\"}]",
];
