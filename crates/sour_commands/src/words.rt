//! The words on the command line, without the program's name.

ghost use Rattle.std.specs.Prelude.{◌≡◌, ◌↔◌, ◌≤◌, ◌∷◌, [], ℕ, Some, IsTrue, codes, length, map};
ghost use Rattle.std.specs.Char.{is_ascii_digit};
ghost use Rattle.std.specs.List.{AllPass};
ghost use Rattle.std.specs.String.{string_bytes};
ghost use Rattle.sour_tokens.specs.Token.{IsDigits};
ghost use Rattle.sour_commands.specs.declared.command.Command.{Command};
ghost use Rattle.sour_commands.specs.declared.command.Command.TheVariants.{Run, Check, Show};
ghost use Rattle.sour_commands.specs.Words.{WritesNumber, IsBudget, AskFor};

use crate::command::Command;

/// The turns that each run may take where no word says another number.
const DEFAULT_BUDGET: u64 = 1_000_000;

/// The most turns that a run may be given.
const MAX_BUDGET: u64 = 10_000_000;

/// The most digits of a number among the words.
const MAX_DIGITS: usize = 8;

/// Whether each byte of a word is a digit.
fn has_digits_alone(word: &[u8]) -> bool
    ensures { IsTrue result ↔ AllPass is_ascii_digit word.now }
{
    word.iter().all(|byte| byte.is_ascii_digit())
}

/// Whether a word is one to eight digits.
fn is_number(word: &[u8]) -> bool
    ensures { IsTrue result ↔ (IsDigits word.now × (length word.now ≤ 8)) }
{
    match word {
        [] => false,
        [_, ..] => word.len() <= MAX_DIGITS && has_digits_alone(word),
    }
}

/// The number that a word of one to eight digits writes.
fn number_of(word: &str) -> Option<u64>
    ensures { (number : ℕ) → WritesNumber number word.now ↔ (result ≡ Some number) }
{
    if is_number(word.as_bytes()) {
        word.parse::<u64>().ok()
    } else {
        None
    }
}

/// A budget, where it is one that a run may be given.
fn limited(budget: u64) -> Option<u64>
    ensures { (other : ℕ) → ((other ≡ budget) × IsBudget other) ↔ (result ≡ Some other) }
{
    if 1 <= budget && budget <= MAX_BUDGET {
        Some(budget)
    } else {
        None
    }
}

/// The budget that a word writes.
fn budget_in(word: &str) -> Option<u64>
    ensures { (budget : ℕ) →
        (WritesNumber budget word.now × IsBudget budget) ↔ (result ≡ Some budget) }
{
    match number_of(word) {
        Some(budget) => limited(budget),
        None => None,
    }
}

/// Whether these words are `run` and `--budget`.
fn is_run_with_budget(command: &str, option: &str) -> bool
    ensures { IsTrue result ↔ ((command.now ≡ codes "run") × (option.now ≡ codes "--budget")) }
{
    command == "run" && option == "--budget"
}

/// The command that three words ask for.
fn command_of_three(command: &str, option: &str, number: &str) -> Option<Command>
    ensures { (asked : Command) →
        AskFor (command.now ∷ option.now ∷ number.now ∷ []) asked ↔ (result ≡ Some asked) }
{
    if !is_run_with_budget(command, option) {
        return None;
    }
    let budget = budget_in(number)?;
    Some(Command::Run { budget })
}

/// The command that one word asks for.
fn command_of_one(word: &str) -> Option<Command>
    ensures { (asked : Command) → AskFor (word.now ∷ []) asked ↔ (result ≡ Some asked) }
{
    match word {
        "run" => Some(Command::Run {
            budget: DEFAULT_BUDGET,
        }),
        "check" => Some(Command::Check),
        "show" => Some(Command::Show),
        _ => None,
    }
}

/// The command that the words ask for: `run`, or `run --budget N` with N from 1 to 10,000,000, or
/// `check`, or `show`.
pub fn command_of(words: &[String]) -> Option<Command>
    ensures { (asked : Command) →
        AskFor (map string_bytes words.now) asked ↔ (result ≡ Some asked) }
{
    match words {
        [word] => command_of_one(word.as_str()),
        [command, option, number] => {
            command_of_three(command.as_str(), option.as_str(), number.as_str())
        }
        _ => None,
    }
}
