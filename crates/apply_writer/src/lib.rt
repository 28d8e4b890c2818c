//! Writes the stream into a sink: head, lines, diagnostics and summary, in either form.
#![tactic(auto)]

mod fault;
mod forms;
mod report;
mod sinks;
mod stream;
mod why;

pub use fault::Fault;
pub use forms::form_lines::FormLines;
pub use forms::plain_lines::PlainLines;
pub use forms::terraform_extras::TerraformExtras;
pub use forms::terraform_lines::TerraformLines;
pub use report::Report;
pub use sinks::memory_sink::MemorySink;
pub use sinks::sink::{Sink, SinkFault, write_all};
pub use sinks::std_sink::StdSink;
pub use stream::StreamWriter;
pub use stream::output::{Output, WriteState};
pub use why::Why;
