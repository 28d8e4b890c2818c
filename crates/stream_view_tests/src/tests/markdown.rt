//! Time lines as Markdown.

use super::{ONE_CREATE, WrittenOutput, drawn, draws};
use std::alloc::{AllocError, Global};
use std::io::ErrorKind;
use std::process::Abort;
use std::rt::Files;
use stream_view::{Colour, Form};

/// One create as a comment.
const ONE_CREATE_MARKDOWN: &str = "**1 step in 0s: 1 added, 0 changed, 0 destroyed**

```

                                   0s
create random_pet.animal        0s ▖

Longest
       0s: create of random_pet.animal
```
";

/// An error whose detail has a line of three backticks.
const THREE_BACKTICKS: &str =
    r#"{"@timestamp":"1970-01-01T00:00:00Z","diagnostic":{"severity":"error","summary":"boom","detail":"see:\n```\nhcl\n```"},"type":"diagnostic"}
"#;

const THREE_BACKTICKS_MARKDOWN: &str =
    "**0 steps in 0s: 0 added, 0 changed, 0 destroyed, with errors**

````

Error: boom
  see:
  ```
  hcl
  ```
````
";

/// A warning with a line of seven backticks, and the end of a step that is not open.
const SEVEN_BACKTICKS: &str =
    r#"{"@timestamp":"1970-01-01T00:00:00Z","diagnostic":{"severity":"warning","summary":"`slow`","detail":"```````\n`"},"type":"diagnostic"}
{}
"#;

const SEVEN_BACKTICKS_MARKDOWN: &str =
    "**0 steps in 0s: 0 added, 0 changed, 0 destroyed, no summary**

````````

Warning: `slow`
  ```````
  `

1 line passed over: no message, or of a step that is not open
````````
";

#[test]
fn one_create_as_markdown(rt: HostRuntime) {
    draws(
        &rt,
        rt.alloc(),
        Form::Markdown,
        ONE_CREATE,
        1,
        ONE_CREATE_MARKDOWN,
    );
}

/// No line of a detail closes the fence.
#[test]
fn backticks_in_a_detail(rt: HostRuntime) {
    let form = Form::Markdown;
    draws(
        &rt,
        rt.alloc(),
        form,
        THREE_BACKTICKS,
        0,
        THREE_BACKTICKS_MARKDOWN,
    );
    draws(
        &rt,
        rt.alloc(),
        form,
        SEVEN_BACKTICKS,
        0,
        SEVEN_BACKTICKS_MARKDOWN,
    );
}

/// What stands around the lines that are kept of 20 errors.
const CUT_FRONT: &str = "**0 steps in 0s: 0 added, 0 changed, 0 destroyed, with errors**\n\n```\n";

const CUT_BACK: &str = "… 1,537 more lines\n```\n";

/// How many bytes the Markdown of 20 errors has. One more line has 101 bytes.
const CUT_LEN: usize = 64_938;

/// Adds an error, whose detail has ten lines of 1,000 digits.
fn push_error(stream: &mut String) -> Result<(), AllocError> {
    stream.push_str(
        r#"{"@timestamp":"1970-01-01T00:00:00Z","diagnostic":{"severity":"error","summary":"boom","detail":""#,
    )?;
    for _line in 0..10 {
        for _digits in 0..100 {
            stream.push_str("0123456789")?;
        }
        stream.push_str("\\n")?;
    }
    stream.push_str("\"},\"type\":\"diagnostic\"}\n")
}

/// A stream of 20 errors.
fn errors(alloc: Global) -> Result<String, AllocError> {
    let mut stream = String::new(alloc);
    for _error in 0..20 {
        push_error(&mut stream)?;
    }
    Ok(stream)
}

/// What is drawn of a stream.
fn picture_of(rt: &(impl Abort + Files), alloc: Global, form: Form, bytes: &[u8]) -> WrittenOutput {
    let mut out = WrittenOutput::new(alloc, usize::MAX, ErrorKind::StorageFull);
    let mut faults = Vec::new(alloc);
    let outcome = drawn(rt, alloc, form, bytes, false, &mut out, &mut faults);
    assert_eq!(rt; outcome.status, 0);
    out
}

/// Whole lines are cut from the end, and counted. The lines that are kept are those of the text.
#[test]
fn markdown_that_is_cut(rt: HostRuntime) {
    let stream = errors(rt.alloc()).expect(&rt, "memory");
    let form = Form::Text {
        width: 100,
        colour: Colour::Never,
    };
    let text = picture_of(&rt, rt.alloc(), form, stream.as_bytes());
    let markdown = picture_of(&rt, rt.alloc(), Form::Markdown, stream.as_bytes());
    assert_eq!(rt; markdown.bytes.len(), CUT_LEN);
    let front = CUT_FRONT.as_bytes();
    let back = CUT_BACK.as_bytes();
    assert!(rt; markdown.bytes.starts_with(front));
    assert!(rt; markdown.bytes.ends_with(back));
    let end = markdown.bytes.len().saturating_sub(back.len());
    let kept = markdown.bytes.get(front.len()..end).unwrap_or(&[]);
    // (the heading is as long as that in bold without the asterisks)
    let rest = text
        .bytes
        .get(front.len().saturating_sub(9)..)
        .unwrap_or(&[]);
    assert!(rt; !kept.is_empty());
    assert!(rt; rest.starts_with(kept));
}
