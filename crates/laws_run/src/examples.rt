//! Worked examples of time lines. The function does nothing: its contract states the events of
//! twenty-two small plans.

ghost use Rattle.laws_run.specs.Examples as example;

/// The events of a few changes in a few lanes, one clause for each example. `specs/Examples.antt`
/// has the plans.
pub fn worked_examples()
    ensures one_waits { example.OneWaits }
    ensures one_waits_in_one_lane { example.OneWaitsInOneLane }
    ensures no_time_goes_by { example.NoTimeGoesBy }
    ensures two_wait_for_one { example.TwoWaitForOne }
    ensures one_fails { example.OneFails }
    ensures one_waits_for_two { example.OneWaitsForTwo }
    ensures two_replacements { example.TwoReplacements }
    ensures create_first { example.CreateFirst }
    ensures create_first_and_fail { example.CreateFirstAndFail }
    ensures first_step_in_one_lane { example.FirstStepInOneLane }
    ensures first_step_in_two_lanes { example.FirstStepInTwoLanes }
    ensures gives_its_lane_away { example.GivesItsLaneAway }
    ensures one_is_halted { example.OneIsHalted }
    ensures nothing_to_do { example.NothingToDo }
    ensures ready_first_goes_first { example.ReadyFirstGoesFirst }
    ensures first_is_skipped { example.FirstIsSkipped }
    ensures second_is_skipped { example.SecondIsSkipped }
    ensures skipped_is_not_halted { example.SkippedIsNotHalted }
    ensures one_only_warns { example.OneOnlyWarns }
    ensures one_goes_on_though_it_warns { example.OneGoesOnThoughItWarns }
    ensures one_warns_and_is_halted { example.OneWarnsAndIsHalted }
    ensures output_in_its_time { example.OutputInItsTime }
{}
