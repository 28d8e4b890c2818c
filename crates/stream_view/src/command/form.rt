//! The output that the arguments ask for.

ghost use Rattle.std.specs.Prelude.{◌≡◌, Some, IfSome, codes};
ghost use Rattle.clap.specs.Matches.{found_of};
ghost use Rattle.clap.specs.Walk.{one_of, rows_of as matched_rows};
ghost use Rattle.stream_view.specs.CommandLine.{IsFormButSvg, IsFormForPeople, IsNumber, colour_of_word, stated_colour};
ghost use Rattle.stream_view.specs.declared.command.settings.Form.TheVariants as form;

use crate::command::colour::Colour;
use crate::command::settings::Form;
use clap::ArgMatches;
use stream_tool::is_given;

/// The default width of a text.
const WIDTH: u32 = 120;

/// The output: an SVG, an object, Markdown or a text.
pub fn form_of(matches: &ArgMatches<'_>) -> Form
    ensures svg { one_of (codes "svg") (matched_rows (found_of matches.now)) ≡ Some (codes "true") → result ≡ form.Svg }
    ensures others { one_of (codes "svg") (matched_rows (found_of matches.now)) ≡ Some (codes "false")
        → IsFormButSvg (matched_rows (found_of matches.now)) result }
{
    if is_given(matches, "svg") {
        Form::Svg
    } else {
        form_but_svg(matches)
    }
}

/// The output where no SVG is asked for: an object, Markdown or a text.
fn form_but_svg(matches: &ArgMatches<'_>) -> Form
    ensures { IsFormButSvg (matched_rows (found_of matches.now)) result }
{
    if is_given(matches, "json") {
        Form::Json
    } else {
        form_for_people(matches)
    }
}

/// The output where neither an SVG nor an object is asked for: Markdown or a text.
fn form_for_people(matches: &ArgMatches<'_>) -> Form
    ensures { IsFormForPeople (matched_rows (found_of matches.now)) result }
{
    if is_given(matches, "markdown") {
        Form::Markdown
    } else {
        Form::Text {
            width: width_of(matches),
            colour: colour_of(matches),
        }
    }
}

/// The width of the text. The parser has checked the number, so the bounds here don't change it.
fn width_of(matches: &ArgMatches<'_>) -> u32
    ensures { IfSome (one_of (codes "width") (matched_rows (found_of matches.now))) (λ text. IsNumber 60 400 text result) }
{
    matches
        .get_one::<u32>("width")
        .unwrap_or(WIDTH)
        .clamp(60, 400)
}

/// When the text has colours.
fn colour_of(matches: &ArgMatches<'_>) -> Colour
    ensures { result ≡ stated_colour (matched_rows (found_of matches.now)) }
{
    match matches.get_str("color") {
        Some(choice) => colour_named(choice),
        None => Colour::Auto,
    }
}

/// The meaning of a value of `--color`. The parser accepts only three values.
fn colour_named(choice: &str) -> Colour
    ensures { result ≡ colour_of_word choice.now }
{
    match choice {
        "always" => Colour::Always,
        "never" => Colour::Never,
        _ => Colour::Auto,
    }
}
