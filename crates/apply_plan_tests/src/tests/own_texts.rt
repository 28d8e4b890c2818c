//! Objects of a diagnostic that are read as raw JSON text.

use super::questions::compare_blocks;
use super::*;

/// Ranges, alone or after a snippet, and the raw text of both. Numbers and members stay as written,
/// and blanks go.
const RANGES: &str = r#"said
(0, Failed { diag: Diag { summary: Text { inner: "boom" }, detail: Text { inner: "" }, range: CELL, snippet: None } }, Provisioners { provisioners: [] }, Waits { waits: [] })
{"format_version":"1.2","terraform_version":"1.9.0","resource_changes":[{"address":"null_resource.a","mode":"managed","type":"null_resource","name":"a","change":{"actions":["create"]}}]}
{"changes":[{"address":"null_resource.a","steps":[{"seconds":0,"failed":{"summary":"boom","range":CELL}}]}]}
{} => Some(Text { inner: "{}" })
 { "b" : 1.0 , "a" : [ 1e2 , -0 , 12345678901234567890123 ] , "b" : null } => Some(Text { inner: "{\"b\":1.0,\"a\":[1e2,-0,12345678901234567890123],\"b\":null}" })
{"a":"\u0041\/\u00e9\ud83d\ude00\t<>&"} => Some(Text { inner: "{\"a\":\"A/é😀\\t<>&\"}" })
{"range":{"range":{"snippet":[{}]}}} => Some(Text { inner: "{\"range\":{\"range\":{\"snippet\":[{}]}}}" })
null => None
{"a":1},"range":null => None
{"a":1},"range":{"a":1.00} => Some(Text { inner: "{\"a\":1.00}" })

said
(0, Failed { diag: Diag { summary: Text { inner: "boom" }, detail: Text { inner: "" }, range: CELL, snippet: Some(Text { inner: "{\"range\":1.0}" }) } }, Provisioners { provisioners: [] }, Waits { waits: [] })
{"format_version":"1.2","terraform_version":"1.9.0","resource_changes":[{"address":"null_resource.a","mode":"managed","type":"null_resource","name":"a","change":{"actions":["create"]}}]}
{"changes":[{"address":"null_resource.a","steps":[{"seconds":0,"failed":{"snippet":{"range":1.0},"summary":"boom","range":CELL}}]}]}
{} => Some(Text { inner: "{}" })
 { "b" : 1.0 , "a" : [ 1e2 , -0 , 12345678901234567890123 ] , "b" : null } => Some(Text { inner: "{\"b\":1.0,\"a\":[1e2,-0,12345678901234567890123],\"b\":null}" })
{"a":"\u0041\/\u00e9\ud83d\ude00\t<>&"} => Some(Text { inner: "{\"a\":\"A/é😀\\t<>&\"}" })
{"range":{"range":{"snippet":[{}]}}} => Some(Text { inner: "{\"range\":{\"range\":{\"snippet\":[{}]}}}" })
null => None
{"a":1},"range":null => None
{"a":1},"range":{"a":1.00} => Some(Text { inner: "{\"a\":1.00}" })"#;

/// Compares the raw text of the range and the snippet of each row.
#[test]
fn ranges_and_snippets_are_kept_as_they_stand(rt: HostRuntime) {
    compare_blocks(&rt, rt.alloc(), RANGES);
}
