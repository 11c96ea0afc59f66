ghost use Rattle.std.specs.Prelude.{◌≡◌, None, Some, map, string_bytes, IfSome};
ghost use Rattle.std.specs.Option.{option_map};
ghost use Rattle.text_rules.specs.Numbers.{plain_number_in};
ghost use Rattle.diag_cli.specs.Words.{form_of, form_by_words, form_load, form_ask, form_by, form_serve, serve_options, option_set, option_of, words_after, is_given, are_options, number_given};
ghost use Rattle.diag_cli.specs.declared.words.Takes.TheVariants.{Nothing, Number};
ghost use Rattle.diag_cli.specs.inner.Forms.{meant, IsWithinLimits};

use adder_load::PLACE_LIMIT;
use branch_states::BUDGET_LIMIT;
use device_files::{Inspection, is_device_path, is_graph_path, is_netlist_path};
use device_model::PART_LIMIT;
use frame_unroller::FRAME_LIMIT;
use level_lister::TOP_LIMIT;
use session_core::{Extras, SESSION_LIMIT};
use text_rules::plain_number;

/// The budget if the words give none.
pub const DEFAULT_BUDGET: u32 = 2_097_152;

/// The most sessions open at a time if the words give no number.
pub const DEFAULT_SESSIONS: u32 = 16;

/// How `serve` answers a script.
#[derive(Clone, Copy)]
pub struct ServeOptions {
    /// The greatest sum of the clauses, from 1 to `BUDGET_LIMIT`.
    pub budget: u32,
    /// The most sessions open at a time, from 1 to `SESSION_LIMIT`.
    pub sessions: u32,
    /// Clauses are compiled along a forest of their variables, if one is found.
    pub narrow: bool,
    /// A search over the clauses answers, and no graph is compiled. The budget and the forest are then of no use.
    pub search: bool,
    /// What sessions offer besides: states up to a cost of at most `TOP_LIMIT`, and the graph of the diagnoses.
    pub extras: Extras,
}

/// What is done with a file.
#[derive(Clone, Copy)]
pub enum Command {
    /// `serve`: answers the script on the input over the device of the file.
    Serve { options: ServeOptions },
    /// `serve` with `--frames`: answers it over a netlist with flip-flops, over `frames` times.
    ServeFrames { frames: u32, options: ServeOptions },
    /// `ask`: answers the script on the input over the graph of the file, whose first `health` variables are parts, with at most `sessions`
    /// sessions open at a time.
    Ask { health: u32, sessions: u32 },
    /// What is printed about the file alone, as by `plan` and `check`.
    Inspect { inspection: Inspection },
    /// `compile`: writes the graph of a device whose sum is within a budget.
    Compile { budget: u32, narrow: bool },
}

/// What the words of the command line ask for.
#[derive(Clone, Copy)]
pub enum Form<'a> {
    /// `load N`: makes an adder of `places` places, and prints the diagnoses of its readings.
    Load { places: u32 },
    /// A command, and its file.
    Over { path: &'a str, command: Command },
}

/// What follows an option.
#[derive(Clone, Copy)]
pub enum Takes {
    /// Nothing.
    Nothing,
    /// A number of at most `digits` decimal digits, from `least` to `most`.
    Number {
        digits: usize,
        least: u32,
        most: u32,
    },
}

// Makes a number of at most `digits` digits, from `least` to `most`.
fn number(digits: usize, least: u32, most: u32) -> Takes
    ensures { result ≡ Number digits least most }
{
    Takes::Number {
        digits,
        least,
        most,
    }
}

// Looks up an option in the table: the commands that take it, and what follows it.
fn option_of(command: &str, word: &str) -> Option<Takes>
    ensures { result ≡ option_of command.now word.now }
{
    let is_serve = command == "serve";
    let is_search = command == "serve --search";
    let is_compile = command == "compile";
    match word {
        "--budget" => (is_serve || is_compile).then_some(number(7, 1, BUDGET_LIMIT)),
        "--sessions" => (is_serve || is_search || command == "ask").then_some(number(
            4,
            1,
            SESSION_LIMIT,
        )),
        "--frames" => (is_serve || is_search).then_some(number(2, 1, FRAME_LIMIT)),
        "--levels" => (is_serve || is_search).then_some(number(7, 0, TOP_LIMIT)),
        "--narrow" => (is_serve || is_compile || command == "plan").then_some(Takes::Nothing),
        "--least" => is_serve.then_some(Takes::Nothing),
        "--search" => is_search.then_some(Takes::Nothing),
        _ => None,
    }
}

// Returns the number that a word spells with at most `digits` digits, if it is from `least` to `most`.
fn number_in(digits: usize, least: u32, most: u32, word: &str) -> Option<u32>
    ensures { result ≡ plain_number_in digits least most word.now }
{
    match plain_number(digits, u64::from(least), u64::from(most), word.as_bytes()) {
        Some(number) => Some(number as u32),
        None => None,
    }
}

// Returns the words after an option, if it is given.
fn words_after<'a>(option: &str, words: &'a [String]) -> Option<&'a [String]>
    ensures { option_map (λ rest. map string_bytes rest.now) result ≡ words_after option.now (map string_bytes words.now) }
{
    let mut rest = words;
    while let Some((word, others)) = rest.split_first() {
        if word.as_str() == option {
            return Some(others);
        }
        rest = others;
    }
    None
}

fn is_given(option: &str, words: &[String]) -> bool
    ensures { result ≡ is_given option.now (map string_bytes words.now) }
{
    words_after(option, words).is_some()
}

// Whether words are options of a command: each is one, its number follows if it takes one, and none is given twice. So it calls itself at
// most once for each.
fn are_options(command: &str, words: &[String]) -> bool
    ensures { result ≡ are_options command.now Nothing (map string_bytes words.now) }
{
    let [word, rest @ ..] = words else {
        return true;
    };
    let Some(takes) = option_of(command, word.as_str()) else {
        return false;
    };
    if is_given(word.as_str(), rest) {
        return false;
    }
    let Takes::Number {
        digits,
        least,
        most,
    } = takes
    else {
        return are_options(command, rest);
    };
    let [number, rest @ ..] = rest else {
        return false;
    };
    number_in(digits, least, most, number.as_str()).is_some() && are_options(command, rest)
}

// Returns the number given for an option of a command.
fn number_given(command: &str, option: &str, words: &[String]) -> Option<u32>
    ensures { result ≡ number_given command.now option.now (map string_bytes words.now) }
{
    let takes = option_of(command, option)?;
    let [number, ..] = words_after(option, words)? else {
        return None;
    };
    match takes {
        Takes::Nothing => None,
        Takes::Number {
            digits,
            least,
            most,
        } => number_in(digits, least, most, number.as_str()),
    }
}

fn serve_options(words: &[String]) -> ServeOptions
    ensures { result ≡ serve_options (map string_bytes words.now) }
{
    ServeOptions {
        budget: number_given("serve", "--budget", words).unwrap_or(DEFAULT_BUDGET),
        sessions: number_given("serve", "--sessions", words).unwrap_or(DEFAULT_SESSIONS),
        narrow: is_given("--narrow", words),
        search: is_given("--search", words),
        extras: Extras {
            levels: number_given("serve", "--levels", words),
            least: is_given("--least", words),
        },
    }
}

// Returns the form of `serve`, over a netlist if there are frames.
fn form_serve<'a>(path: &'a str, options: ServeOptions, frames: Option<u32>) -> Option<Form<'a>>
    ensures { option_map meant result ≡ form_serve path.now options frames }
{
    let command = match frames {
        None if is_device_path(path) => Command::Serve { options },
        Some(frames) if is_netlist_path(path) => Command::ServeFrames { frames, options },
        _ => return None,
    };
    Some(Form::Over { path, command })
}

// Returns the form of a command over a file, with options.
fn form_by<'a>(command: &str, path: &'a str, words: &[String]) -> Option<Form<'a>>
    ensures { option_map meant result ≡ form_by command.now path.now (map string_bytes words.now) }
{
    let narrow = is_given("--narrow", words);
    let command = match command {
        "serve" => {
            let frames = number_given("serve", "--frames", words);
            return form_serve(path, serve_options(words), frames);
        }
        "compile" if is_device_path(path) => {
            let budget = number_given("compile", "--budget", words).unwrap_or(DEFAULT_BUDGET);
            Command::Compile { budget, narrow }
        }
        _ => {
            let inspection = Inspection::named(command, path, narrow)?;
            Command::Inspect { inspection }
        }
    };
    Some(Form::Over { path, command })
}

// Returns the form of `ask` over a graph, with the words after the file.
fn form_ask<'a>(path: &'a str, words: &[String]) -> Option<Form<'a>>
    ensures { option_map meant result ≡ form_ask path.now (map string_bytes words.now) }
{
    let [health, rest @ ..] = words else {
        return None;
    };
    let health = number_in(4, 0, PART_LIMIT as u32, health.as_str())?;
    if !are_options("ask", rest) || !is_graph_path(path) {
        return None;
    }
    let sessions = number_given("ask", "--sessions", rest).unwrap_or(DEFAULT_SESSIONS);
    let command = Command::Ask { health, sessions };
    Some(Form::Over { path, command })
}

// Returns the form of `load`, with no further word.
fn form_load<'a>(places: &str, words: &[String]) -> Option<Form<'a>>
    ensures { option_map meant result ≡ form_load places.now (map string_bytes words.now) }
{
    if !words.is_empty() {
        return None;
    }
    let places = number_in(3, 1, PLACE_LIMIT, places)?;
    Some(Form::Load { places })
}

// Returns the name of the options that are allowed: those of the command, or the few that go with a search.
fn option_set<'a>(command: &'a str, words: &[String]) -> &'a str
    ensures { result.now ≡ option_set command.now (map string_bytes words.now) }
{
    if command == "serve" && is_given("--search", words) {
        "serve --search"
    } else {
        command
    }
}

// Returns the form of the words after the first two.
fn form_by_words<'a>(command: &str, next: &'a str, words: &[String]) -> Option<Form<'a>>
    ensures { option_map meant result ≡ form_by_words command.now next.now (map string_bytes words.now) }
{
    match command {
        "load" => form_load(next, words),
        "ask" => form_ask(next, words),
        _ if are_options(option_set(command, words), words) => form_by(command, next, words),
        _ => None,
    }
}

/// Returns the form of the words, if they have one.
#[tactic(auto, using(crate::proofs::WordLemmas::few_words))]
pub(crate) fn form_of(words: &[String]) -> Option<Form<'_>>
    ensures form { option_map meant result ≡ form_of (map string_bytes words.now) }
    ensures limits { IfSome result (λ form. IsWithinLimits (meant form)) }
{
    let [command, next, rest @ ..] = words else {
        return None;
    };
    form_by_words(command.as_str(), next.as_str(), rest)
}
