//! `rules` and `explain`.
use mq_command::EarlyExit;
use mq_explain::explanation;
use mq_host::{MISUSED, PASSED};
use mq_rules::Rule;
use mq_tasks_harness::printed_by;
use std::alloc::{AllocError, Global};
use std::io;
use std::test::Fail;

// Whether these words print so many lines, of which these are the first bytes.
fn lists(alloc: Global, words: &[&str], lines: usize, start: &[u8]) -> Result<bool, EarlyExit> {
    let printed = printed_by(alloc, words, &mut io::empty())?;
    let text = printed.output.as_slice();
    let count = text.iter().filter(|byte| **byte == 10).count();
    Ok(printed.status == PASSED && count == lines && text.starts_with(start))
}

#[test]
fn lists_the_statements(rt: HostRuntime) -> Result<(), Fail> {
    let first =
        b"W01 both MQTT-2.1.3-1 The flags of a packet other than PUBLISH are those of its type.\n";
    for (words, lines) in [
        (&["mqjudge", "rules"][..], 74),
        (&["mqjudge", "rules", "--all"][..], 100),
        (&["mqjudge", "rules", "--role", "client"][..], 54),
        (&["mqjudge", "rules", "--role", "server"][..], 64),
        (&["mqjudge", "rules", "--all", "--role", "client"][..], 64),
        (&["mqjudge", "rules", "--all", "--role", "server"][..], 83),
        (&["mqjudge", "rules", "--times"][..], 102),
        (&["mqjudge", "rules", "--times", "--role", "client"][..], 65),
        (
            &["mqjudge", "rules", "--all", "--times", "--role", "server"][..],
            84,
        ),
    ] {
        assert!(rt; lists(rt.alloc(), words, lines, first)?, "{words:?}");
    }
    Ok(())
}

#[test]
fn explains_a_code_in_any_case(rt: HostRuntime) -> Result<(), Fail> {
    let first = b"S01 both MQTT-2.2.1-3;MQTT-2.2.1-4\n";
    for code in ["S01", "s01"] {
        assert!(rt;
            lists(rt.alloc(), &["mqjudge", "explain", code], 31, first)?,
            "{code}"
        );
    }
    Ok(())
}

// The texts of the statements with these codes, with an empty line between two.
fn texts_of(alloc: Global, codes: &[&str]) -> Result<String, AllocError> {
    let mut texts = String::new(alloc);
    for code in codes {
        if !texts.is_empty() {
            texts.push('\n')?;
        }
        if let Some(rule) = Rule::of_code(code) {
            texts.push_str(explanation(rule))?;
        }
    }
    Ok(texts)
}

// Whether a word explains the statements with these codes, in this order.
fn is_explained_by(alloc: Global, word: &str, codes: &[&str]) -> Result<bool, Fail> {
    let texts = texts_of(alloc, codes)?;
    let printed = printed_by(alloc, &["mqjudge", "explain", word], &mut io::empty())?;
    Ok(printed.says(PASSED, texts.as_str()))
}

#[test]
fn explains_all_statements_with_a_citation(rt: HostRuntime) -> Result<(), Fail> {
    let rows: [(&str, &[&str]); 13] = [
        ("MQTT-4.4.0-1", &["S03", "S06"]),
        ("mqtt-4.4.0-1", &["S03", "S06"]),
        ("MQTT-2.2.1-5", &["E1A", "E2A", "E3A", "E4A"]),
        ("sec-2.2.1", &["W09"]),
        ("MQTT-2.2.1-4", &["S01"]),
        ("MQTT-2.2.1-3;MQTT-2.2.1-4", &["S01"]),
        ("MQTT-4.3.2-2,MQTT-4.3.3-2", &["S02"]),
        ("MQTT-4.3.3-2", &["S02"]),
        ("MQTT-3.2.2-7", &["C12", "C23"]),
        ("MQTT-3.3.2-3", &["B01", "B08"]),
        ("MQTT-3.8.4-8", &["B02", "B09"]),
        ("MQTT-3.3.1-12", &["R01"]),
        ("sec-3.3.4", &["P01", "D05"]),
    ];
    for (word, codes) in rows {
        assert!(rt; is_explained_by(rt.alloc(), word, codes)?, "{word}");
    }
    Ok(())
}

// Whether this word explains nothing.
fn is_unknown(alloc: Global, word: &str) -> Result<bool, EarlyExit> {
    let printed = printed_by(alloc, &["mqjudge", "explain", word], &mut io::empty())?;
    Ok(printed.status == MISUSED && printed.output.is_empty() && !printed.error.is_empty())
}

// With each word: the beginning of a citation, or separators alone.
#[test]
fn explains_no_other_word(rt: HostRuntime) -> Result<(), Fail> {
    for word in [
        "MQTT-4.4.0",
        "MQTT-4.4.0-1,",
        "",
        ",",
        ";",
        "sec-",
        "S0",
        "MQTT-4.4.0-1,S06",
    ] {
        assert!(rt; is_unknown(rt.alloc(), word)?, "{word}");
    }
    Ok(())
}
