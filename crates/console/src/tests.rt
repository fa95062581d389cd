// Rules read and printed again, and texts that are none.
use crate::*;
use rules::Rule;
use std::process::Abort;
use std::test::*;

// The rule that is read from the spelling of this one.
fn spelled_and_read(rt: &(impl Abort + AllocGlobal), rule: &Rule) -> Result<Rule, Fail> {
    let mut room = [0u8; 529];
    let n = rule.spelled(&mut room).map_err(|_| "no room")?;
    let spelling = room.get(..n).ok_or("too long")?;
    Ok(Rule::from_spelling(rt.alloc(), spelling).map_err(|_| "no rule")?)
}

// The text is a rule's, and what is printed of that rule, also after it was spelled and read again.
fn comes_back(rt: &(impl Abort + AllocGlobal), text: &str) -> Result<(), Fail> {
    let rule = spelled_and_read(rt, &read_rule(rt.alloc(), text.as_bytes())?)?;
    let printed = rule_text(rt.alloc(), &rule)?;
    assert_eq!(rt; printed.as_slice(), text.as_bytes());
    Ok(())
}

#[test]
fn texts_come_back(rt: HostRuntime) -> Result<(), Fail> {
    let texts = [
        "no parts",
        "from the last place behind which a run of letters begins, to the end",
        "from the beginning to the first place behind which small letters begin; \".\"; from the last place behind which blanks begin, to the end",
        "from the last place behind which digits begin, to the end; \"/\"; from the beginning to the first place behind which there's a \"-\"",
        "from 1 byte from the beginning to 5 bytes from the end",
        "from the 12th place before which capitals end, and behind which there's a \"\\xe9\", to the 22nd last place before which there's a \"\\\"\"",
        "\"\\\\ \\x0a\\x7f\u{e9}\"; \"\\xe9\\xff\"",
    ];
    for text in texts {
        comes_back(&rt, text)?;
    }
    Ok(())
}

// The text is refused at this byte, where this was expected.
fn is_refused(
    rt: &(impl Abort + AllocGlobal),
    text: &str,
    byte: usize,
    expected: Expected,
) -> Result<(), Fail> {
    let why = read_rule(rt.alloc(), text.as_bytes()).err();
    assert_eq!(rt; why, Some(NotARule::At { byte, expected }), "{text}");
    Ok(())
}

#[test]
fn other_texts_are_refused(rt: HostRuntime) -> Result<(), Fail> {
    let refusals = [
        ("", 0, Expected::Part),
        ("from here to the end", 5, Expected::Place),
        ("from the middle to the end", 9, Expected::Named),
        ("from the beginning, to the end", 18, Expected::To),
        (
            "from 1 bytes from the beginning to the end",
            6,
            Expected::Bytes,
        ),
        (
            "from 65 bytes from the beginning to the end",
            5,
            Expected::Number,
        ),
        (
            "from the 1st place behind which digits begin, to the end",
            9,
            Expected::LaterNumber,
        ),
        (
            "from the 2st place behind which digits begin, to the end",
            10,
            Expected::OrdinalEnd,
        ),
        (
            "from the last place before which digits begin, to the end",
            33,
            Expected::Kind,
        ),
        (
            "from the last place behind which there's a \"ab\", to the end",
            45,
            Expected::Quote,
        ),
        ("\"\"", 1, Expected::Byte),
        ("\"\\n\"", 2, Expected::Escape),
        ("\"\\xE9\"", 3, Expected::Digit),
        ("\"a\"; ", 5, Expected::Part),
        ("\"a\" ", 3, Expected::End),
    ];
    for (text, byte, expected) in refusals {
        is_refused(&rt, text, byte, expected)?;
    }
    Ok(())
}

#[test]
fn a_refusal_says_where_and_what(rt: HostRuntime) -> Result<(), Fail> {
    let why = NotARule::At {
        byte: 5,
        expected: Expected::Place,
    };
    let text = why.to_string(rt.alloc())?;
    assert_eq!(rt;
        text.as_str(),
        "at byte 6 of the rule: expected a place, as \"the beginning\" or \"the last place\""
    );
    Ok(())
}
