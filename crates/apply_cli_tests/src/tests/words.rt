//! Which arguments state which settings, which form, which command, and how many changes run at
//! once.

use super::*;

/// Arguments, and the settings that they state, or the answer to them.
const SETTINGS: &str =
    r#" => Settings { at: Start { seconds: 0 }, script: None, workers: 1, queue: 64, operation: Apply, halts: [] }
--workers 1 => Settings { at: Start { seconds: 0 }, script: None, workers: 1, queue: 64, operation: Apply, halts: [] }
--workers=8 => Settings { at: Start { seconds: 0 }, script: None, workers: 8, queue: 64, operation: Apply, halts: [] }
--workers 0 => Words
--workers 9 => Words
--workers 264 => Words
--workers two => Words
--workers -1 => Words
--workers=-1 => Words
--workers => Words
--workers 2 --workers 2 => Words
--queue 1 => Settings { at: Start { seconds: 0 }, script: None, workers: 1, queue: 1, operation: Apply, halts: [] }
--queue 1024 => Settings { at: Start { seconds: 0 }, script: None, workers: 1, queue: 1024, operation: Apply, halts: [] }
--queue 0 => Words
--queue 1025 => Words
--queue 65537 => Words
--queue -1 => Words
--queue => Words
--queue 2 --queue 2 => Words
--at 1970-01-01T00:00:00Z => Settings { at: Start { seconds: 0 }, script: None, workers: 1, queue: 64, operation: Apply, halts: [] }
--at 2021-05-25T13:32:41.275359-04:00 => Settings { at: Start { seconds: 1621963961 }, script: None, workers: 1, queue: 64, operation: Apply, halts: [] }
--at 8999-12-31T23:59:59Z => Settings { at: Start { seconds: 221845391999 }, script: None, workers: 1, queue: 64, operation: Apply, halts: [] }
--at 1969-12-31T23:59:59Z => OutOfRange
--at 9000-01-01T00:00:00Z => OutOfRange
--at x => NotAMoment
--at => Words
--at -1 => Words
--at=-1 => NotAMoment
--at x --at x => Words
--at Now => NotAMoment
--at= => NotAMoment
--at x --workers 9 => Words
--script outcomes.json => Settings { at: Start { seconds: 0 }, script: Some(Text { inner: "outcomes.json" }), workers: 1, queue: 64, operation: Apply, halts: [] }
--script => Words
--script -a => Words
--script=-a => Settings { at: Start { seconds: 0 }, script: Some(Text { inner: "-a" }), workers: 1, queue: 64, operation: Apply, halts: [] }
--script a --script a => Words
--destroy => Settings { at: Start { seconds: 0 }, script: None, workers: 1, queue: 64, operation: Destroy, halts: [] }
--destroy=true => Words
--destroy --destroy => Words
--halt-in a --halt-before read => Settings { at: Start { seconds: 0 }, script: None, workers: 1, queue: 64, operation: Apply, halts: [Before(Read), Inside(Text { inner: "a" })] }
--halt-before create --halt-before update --halt-before delete --halt-before create => Settings { at: Start { seconds: 0 }, script: None, workers: 1, queue: 64, operation: Apply, halts: [Before(Create), Before(Update), Before(Delete), Before(Create)] }
--halt-in b --halt-in a --halt-in= => Settings { at: Start { seconds: 0 }, script: None, workers: 1, queue: 64, operation: Apply, halts: [Inside(Text { inner: "b" }), Inside(Text { inner: "a" }), Inside(Text { inner: "" })] }
--halt-in -a => Words
--halt-in=-a => Settings { at: Start { seconds: 0 }, script: None, workers: 1, queue: 64, operation: Apply, halts: [Inside(Text { inner: "-a" })] }
--halt-before forget => Words
--halt-before Read => Words
--halt-before -a => Words
--halt-before => Words
--halt-in => Words
plan.json => Words
--plan => Words
-w 2 => Words
--version => Version
-V => Version
--destroy --version => Version
--version --workers 9 => Version
--workers 9 --version => Words
--help --version => Help
--version --help => Version
--help => Help
-h => Help
--help --workers 9 => Help
--workers 9 --help => Words"#;

/// Arguments, and the form that they state.
const FORMS: &str = " => Applystream
--form applystream => Applystream
--form terraform => Terraform
--form=terraform => Terraform
--form terraform --parallelism 2 => Terraform
--workers 2 --queue 1 --form terraform --destroy --halt-before read => Terraform
--form Terraform => Words
--form json => Words
--form= => Words
--form => Words
--form terraform --form terraform => Words
--form applystream --form terraform => Words
--form x --at x => Words
--form terraform --at x => NotAMoment
--form terraform --parallelism 2 --workers 2 => Beside
--form terraform --at now => Clock
--form terraform --version => Version
--help --form x => Help";

/// Arguments, and the command that they state, with its form, its operation and its refresh.
const COMMANDS: &str = r#" => Saved Applystream Apply true
--destroy => Saved Applystream Destroy true
--form terraform => Saved Terraform Apply true
--command saved => Saved Applystream Apply true
--command=saved --destroy => Saved Applystream Destroy true
--command saved --form applystream => Saved Applystream Apply true
--command saved --form terraform => Saved Terraform Apply true
--command plan => Plan Terraform Apply true
--command=apply => Apply Terraform Apply true
--command destroy => Destroy Terraform Destroy true
--form terraform --command plan => Plan Terraform Apply true
--command apply --form=terraform => Apply Terraform Apply true
--command plan --refresh true => Plan Terraform Apply true
--command plan --refresh false => Plan Terraform Apply false
--refresh=false --command apply => Apply Terraform Apply false
--command destroy --refresh=false => Destroy Terraform Destroy false
--command plan --parallelism 2 --halt-before create => Plan Terraform Apply true
--command apply --workers 8 --queue 1 => Apply Terraform Apply true
--command planned => Words
--command Plan => Words
--command= => Words
--command => Words
--command plan --command plan => Words
--command saved --command plan => Words
--command plan --refresh maybe => Words
--command plan --refresh True => Words
--command plan --refresh => Words
--command plan --refresh true --refresh true => Words
--refresh maybe => Words
--command plan --form applystream => --command takes --form terraform
--form=applystream --command apply => --command takes --form terraform
--command destroy --form applystream => --command takes --form terraform
--command=plan --destroy --form applystream => --command takes --form terraform
--command plan --destroy => --command takes no --destroy beside it
--command apply --destroy --form terraform => --command takes no --destroy beside it
--destroy --command destroy --refresh false => --command takes no --destroy beside it
--refresh true => --refresh takes --command plan, apply or destroy
--refresh false --form terraform => --refresh takes --command plan, apply or destroy
--command saved --refresh false => --refresh takes --command plan, apply or destroy
--command saved --form applystream --destroy --refresh true => --refresh takes --command plan, apply or destroy
--command plan --destroy --parallelism 2 --workers 2 => Beside
--command plan --destroy --at now => --command takes no --destroy beside it
--refresh true --at x => --refresh takes --command plan, apply or destroy
--command plan --destroy --at x --refresh maybe => Words
--command plan --at x => NotAMoment
--command plan --at now => Clock
--command plan --version => Version
--command planned --help => Words
--help --command planned => Help"#;

/// Arguments, and how many changes at once they ask for.
const LANES: &str = " => None
--parallelism 1 => Some(1)
--parallelism 10 => Some(10)
--parallelism=64 => Some(64)
--parallelism 2 --destroy --at 2024-05-01T12:00:00Z --halt-before delete => Some(2)
--parallelism 0 => Words
--parallelism 65 => Words
--parallelism 258 => Words
--parallelism ten => Words
--parallelism -1 => Words
--parallelism => Words
--parallelism 2 --parallelism 2 => Words
--parallelism 2 --workers 2 => Beside
--workers 1 --parallelism 2 => Beside
--parallelism 2 --queue 64 => Beside
--queue=1 --workers=8 --parallelism=64 => Beside
--parallelism 2 --workers 2 --at x => Beside
--parallelism 2 --workers 2 --at now => Beside
--parallelism 65 --at now => Words
--parallelism 2 --workers 9 => Words
--parallelism 2 --workers 2 --help => Help
--workers 2 --queue 1 => None
--parallelism 2 --at x => NotAMoment
--workers 2 --version => Version
-V --parallelism 2 => Version
--help => Help";

/// Arguments with further options, and the answer of those of the settings alone.
const OTHERS: &str = "--parallelism 2 => Words
--parallelism 2 --workers 2 => Words
--parallelism=x --at x => Words
--help --parallelism 2 => Help
--form terraform => Words
--form=applystream => Words
--form x --at x => Words
--command saved => Words
--refresh true => Words
-h --form terraform => Help";

/// The answer to the arguments: what they state for `what`, or the error.
fn answer_to(rt: &impl Abort, alloc: Global, what: &str, text: &str) -> &'static str {
    match read_of(rt, alloc, text) {
        Ok(invocation) => stated_by(rt, alloc, what, invocation),
        Err(usage) => fault_of(rt, alloc, usage),
    }
}

/// What the invocation states for `what`.
fn stated_by(rt: &impl Abort, alloc: Global, what: &str, invocation: &Invocation) -> &'static str {
    match what {
        "form" => shown(rt, alloc, &invocation.form),
        "command" => command_shown(rt, alloc, invocation),
        "lanes" => shown(rt, alloc, &invocation.parallelism),
        _ => shown(rt, alloc, &invocation.settings),
    }
}

/// The command, its form, its operation and its refresh.
fn command_shown(rt: &impl Abort, alloc: Global, invocation: &Invocation) -> &'static str {
    let Invocation {
        command,
        form,
        refresh,
        ..
    } = invocation;
    let operation = invocation.settings.operation;
    let text = format!(in alloc; "{command:?} {form:?} {operation:?} {refresh}");
    leaked_text(rt, alloc, text.expect(rt, "memory"))
}

/// The answer of the options of the settings alone.
fn settings_answer_to(rt: &impl Abort, alloc: Global, text: &str) -> &'static str {
    let words = words_of(rt, alloc, text);
    match leaked(rt, alloc, read_words(alloc, words)) {
        Ok(settings) => shown(rt, alloc, settings),
        Err(usage) => fault_of(rt, alloc, usage),
    }
}

/// The error of a timestamp, the text of a misplaced option, or the name of any other usage.
fn fault_of(rt: &impl Abort, alloc: Global, usage: &Usage) -> &'static str {
    match usage {
        Usage::Moment(error) => shown(rt, alloc, error),
        Usage::Misplaced(error) => {
            let text = format!(in alloc; "{error}");
            leaked_text(rt, alloc, text.expect(rt, "memory"))
        }
        _ => name_of(usage),
    }
}

/// Fails if arguments are answered otherwise. Arguments that only state settings are also given to
/// the options of the settings alone.
fn row_is_answered(rt: &impl Abort, alloc: Global, what: &str, row: &str) {
    let (words, wanted) = parted(rt, row, " => ");
    if what != "others" {
        text_is(rt, row, answer_to(rt, alloc, what, words), wanted);
    }
    if what == "others" || what == "settings" {
        text_is(rt, row, settings_answer_to(rt, alloc, words), wanted);
    }
}

/// Tests each row.
fn words_state(rt: &impl Abort, alloc: Global, what: &str, table: &str) {
    for row in table.lines() {
        row_is_answered(rt, alloc, what, row);
    }
}

#[test]
fn words_state_settings(rt: HostRuntime) {
    words_state(&rt, rt.alloc(), "settings", SETTINGS);
    words_state(&rt, rt.alloc(), "form", FORMS);
    words_state(&rt, rt.alloc(), "command", COMMANDS);
    words_state(&rt, rt.alloc(), "lanes", LANES);
    words_state(&rt, rt.alloc(), "others", OTHERS);
}

/// Fails if the option and a run accept different numbers.
fn number_is_taken(rt: &impl Abort, alloc: Global, option: &str, number: u16, in_range: bool) {
    let words = format!(in alloc; "{option} {number}").expect(rt, "memory");
    let words = leaked_text(rt, alloc, words);
    let taken = read_of(rt, alloc, words).is_ok();
    holds(rt, words, taken == in_range);
}

/// Whether a run accepts so many workers and such a queue.
fn is_size(workers: u8, capacity: u16) -> bool {
    let options = Options {
        workers,
        capacity,
        start: Start::zero(),
        operation: Operation::Apply,
    };
    options.in_range()
}

/// The parser's bounds are written separately; they must be those of a run.
#[test]
fn options_take_the_numbers_that_a_run_takes(rt: HostRuntime) {
    let alloc = rt.alloc();
    for workers in 0..=20u8 {
        let in_range = is_size(workers, 64);
        number_is_taken(&rt, alloc, "--workers", u16::from(workers), in_range);
    }
    for queue in [0, 1, 2, 1023, 1024, 1025, 2048] {
        number_is_taken(&rt, alloc, "--queue", queue, is_size(1, queue));
    }
    let most = u16::from(MAX_LANES);
    number_is_taken(&rt, alloc, "--parallelism", 0, false);
    number_is_taken(&rt, alloc, "--parallelism", 1, true);
    number_is_taken(&rt, alloc, "--parallelism", most, true);
    number_is_taken(&rt, alloc, "--parallelism", most + 1, false);
}

/// Fails unless `--at now` starts with the whole second of the clock.
fn now_is(rt: &impl Abort, alloc: Global, since_1970: Option<Duration>, wanted: &str) {
    let clock = Still { since_1970 };
    for words in ["--at now", "--at=now --destroy --form terraform"] {
        let words = words_of(rt, alloc, words);
        let answer = match leaked(rt, alloc, read_invocation(&clock, alloc, words)) {
            Ok(invocation) => shown(rt, alloc, &invocation.settings.at),
            Err(usage) => fault_of(rt, alloc, usage),
        };
        text_is(rt, wanted, answer, wanted);
    }
}

#[test]
fn now_is_the_second_of_the_clock(rt: HostRuntime) {
    let alloc = rt.alloc();
    let at = |seconds, nanoseconds| Some(Duration::new(seconds, nanoseconds));
    now_is(&rt, alloc, at(0, 999_999_999), "Start { seconds: 0 }");
    now_is(
        &rt,
        alloc,
        at(1_714_564_800, 1),
        "Start { seconds: 1714564800 }",
    );
    let last = at(221_845_391_999, 999_999_999);
    now_is(&rt, alloc, last, "Start { seconds: 221845391999 }");
    now_is(&rt, alloc, at(221_845_392_000, 0), "Clock");
    now_is(&rt, alloc, at(u64::MAX, 0), "Clock");
    now_is(&rt, alloc, None, "Clock");
    let words = words_of(&rt, alloc, "--at now");
    let answer = leaked(&rt, alloc, read_words(alloc, words));
    holds(
        &rt,
        "without a clock",
        matches!(answer, Err(Usage::Moment(MomentError::NotAMoment))),
    );
}

/// The words, so many times.
fn repeated(rt: &impl Abort, alloc: Global, words: &str, count: usize) -> &'static str {
    leaked_text(rt, alloc, words.repeat(alloc, count).expect(rt, "memory"))
}

/// Words for so many halts before deletes, and so many inside `a`.
fn halts_of(rt: &impl Abort, alloc: Global, before: usize, inside: usize) -> &'static str {
    let inside = repeated(rt, alloc, "--halt-in a ", inside);
    let before = repeated(rt, alloc, "--halt-before delete ", before);
    let words = format!(in alloc; "{inside}{before}");
    leaked_text(rt, alloc, words.expect(rt, "memory"))
}

/// Fails if words for so many halts are answered otherwise.
fn halts_are_answered(rt: &impl Abort, alloc: Global, before: usize, inside: usize, wanted: &str) {
    let words = halts_of(rt, alloc, before, inside);
    let actual = answer_to(rt, alloc, "settings", words);
    holds(rt, words, actual.starts_with(wanted));
    let actual = settings_answer_to(rt, alloc, words);
    holds(rt, words, actual.starts_with(wanted));
}

#[test]
fn there_are_32_halts_at_most(rt: HostRuntime) {
    let alloc = rt.alloc();
    halts_are_answered(&rt, alloc, 32, 0, "Settings");
    halts_are_answered(&rt, alloc, 33, 0, "Hooks");
    halts_are_answered(&rt, alloc, 0, 32, "Settings");
    halts_are_answered(&rt, alloc, 0, 33, "Hooks");
    halts_are_answered(&rt, alloc, 31, 1, "Settings");
    halts_are_answered(&rt, alloc, 1, 32, "Hooks");
    halts_are_answered(&rt, alloc, 40, 40, "Hooks");
}
