//! Laws of the lines of a stream. Each function does nothing: its contract is the law.

ghost use Rattle.std.specs.Prelude.{IfSome, List, codes, count_by, decimal, slice_get, ℕ, ◌*◌, ◌++◌, ◌+◌, ◌<◌, ◌≡◌, ◌≤◌};
ghost use Rattle.std.specs.List.Sorted.{IsNonDecreasingBy};
ghost use Rattle.serde_json.specs.Data.{Data};
ghost use Rattle.apply_model.specs.Plan.SavedPlan.{SavedPlan};
ghost use Rattle.apply_model.specs.Script.OutcomeMap.{OutcomeMap};
ghost use Rattle.apply_events.specs.declared.event.Event.{Event};
ghost use Rattle.apply_events.specs.OfWorker.{of_worker};
ghost use Rattle.apply_events.specs.Totals.{totals_of};
ghost use Rattle.apply_text.specs.Elapsed.{elapsed_of};
ghost use Rattle.apply_text.specs.Latest.{latest_of};
ghost use Rattle.apply_text.specs.Laws.{line_feeds, reports_completion};
ghost use Rattle.apply_text.specs.Lines.{line_of, lines_of, stream_of};
ghost use Rattle.apply_text.specs.Order.{as_written, hook_messages_of};
ghost use Rattle.apply_text.specs.declared.operation.Operation.{Operation};
ghost use Rattle.apply_writer.specs.Stream.Form.{lines_in, plain_form, stream_in};

/// The timestamps of a stream's lines never fall.
pub fn times_of_lines_never_fall()
    ensures { (events : List Event) (i j : ℕ) → i ≤ j → latest_of events i ≤ latest_of events j }
{}

/// The line of a hook message has the time of its own event, if the times of the events never fall.
pub fn a_hook_message_has_the_time_of_its_event()
    ensures { (taken : List Event) (i : ℕ) → IsNonDecreasingBy (λ (event : Event). event.at) taken
        → IfSome (slice_get (hook_messages_of taken) i) (λ event. latest_of (as_written taken) (i + 1) ≡ event.at) }
{}

/// Diagnostics are written last, and this order neither drops an event nor adds one.
///
/// `totals`: the totals stay. `workers`: the lines of a worker are the lines that it would have if
/// it ran alone.
pub fn the_order_of_writing_loses_no_event()
    ensures totals { (plan : SavedPlan) (taken : List Event) → totals_of plan (as_written taken) ≡ totals_of plan taken }
    ensures workers { (worker : ℕ) (taken : List Event)
        → of_worker worker (as_written taken) ≡ as_written (of_worker worker taken) }
{}

/// Elapsed times below a minute are written in seconds alone. A whole minute of the first hour is
/// written as `1m0s`, a whole hour as `1h0m0s`.
pub fn whole_units_are_written_with_zeros()
    ensures seconds { (n : ℕ) → n < 60 → elapsed_of n ≡ decimal n ++ codes "s" }
    ensures minutes { (n : ℕ) → 0 < n → n < 60 → elapsed_of (n * 60) ≡ decimal n ++ codes "m0s" }
    ensures hours { (n : ℕ) → 0 < n → elapsed_of (n * 3600) ≡ decimal n ++ codes "h0m0s" }
{}

/// The summary counts the lines that report the completion of a create, an update or a delete.
pub fn the_summary_counts_the_lines_of_completion()
    ensures { (plan : SavedPlan) (script : OutcomeMap) (events : List Event)
        → let totals = totals_of plan events in
        totals.added + totals.changed + totals.removed ≡ count_by (reports_completion plan script) events }
{}

/// A line has one line feed, at its end.
pub fn a_line_has_one_line_feed()
    ensures { (d : Data) → line_feeds (line_of d) ≡ 1 }
{}

/// A stream in the default form is the stream of `apply_text`: the same lines, and the same whole.
pub fn the_default_form_is_the_plain_stream()
    ensures lines { (plan : SavedPlan) (script : OutcomeMap) (start : ℕ) (operation : Operation) (written : List Event)
        → lines_in (plain_form plan script start operation) written ≡ lines_of plan script start written }
    ensures stream { (plan : SavedPlan) (script : OutcomeMap) (start : ℕ) (operation : Operation) (taken : List Event)
        → stream_in (plain_form plan script start operation) taken ≡ stream_of plan script start operation taken }
{}
